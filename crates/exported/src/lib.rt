// Every public call: the same names with a prefix, the same arguments in the same order, the same contracts. `exported_c` puts them into one archive for C.
#![tactic(auto)]

ghost use Rattle.std.specs.Prelude.{◌≡◌, length};
ghost use Rattle.hukolearu.specs.Door.{work_after};
ghost use Rattle.hukolearu.specs.Calls.{search_call, search_with, check_call, check_with, at_front};
ghost use Rattle.seen.specs.Copying.{seen_in};
ghost use Rattle.education.specs.Education.{education_search, education_check};
ghost use Rattle.table.specs.File.{table_in};
ghost use Rattle.restart.specs.Restart.{search_on, check_on};
ghost use Rattle.season.specs.Season.{season_with, report_of, proof_after, answer_after, work_left};
ghost use Rattle.slim.specs.Call.{slim_call};
ghost use Rattle.desk.specs.Desk.{desk_says, values_of};
ghost use Rattle.smallest.specs.Smallest.{smallest_call};
ghost use Rattle.tptp.specs.Reads.{Reads};
ghost use Rattle.clauselines.specs.Call.{write_call};
ghost use Rattle.listing.specs.Call.{listing_call, listing_with};

use clauselines::TextWritten;
use desk::DeskValues;
use hukolearu::{Outcome, calls};
use season::Report;
use slim::Slimmed;
use smallest::Least;
use tptp::TextRead;

#[unsafe(no_mangle)]
pub extern "C" fn hukolearu_search(
    file: &[u32],
    bound: u32,
    budget: u32,
    proof: &mut [u32],
    answer: &mut [u32],
    work: &mut [u32],
) -> Outcome
    ensures value { result ≡ (search_call (search_with file.now bound budget proof.old answer.old work.old)).outcome }
    ensures proof_after { proof.new ≡ at_front (search_call (search_with file.now bound budget proof.old answer.old work.old)).proof proof.old }
    ensures answer_after { answer.new ≡ at_front (search_call (search_with file.now bound budget proof.old answer.old work.old)).answer answer.old }
    ensures work_after { work.new ≡ work_after work.old }
{
    calls::search(file, bound, budget, proof, answer, work)
}

#[unsafe(no_mangle)]
pub extern "C" fn hukolearu_check_proof(
    file: &[u32],
    bound: u32,
    offered: &[u32],
    answer: &mut [u32],
    work: &mut [u32],
) -> Outcome
    ensures value { result ≡ (check_call (check_with file.now bound offered.now answer.old work.old)).outcome }
    ensures answer_after { answer.new ≡ at_front (check_call (check_with file.now bound offered.now answer.old work.old)).answer answer.old }
    ensures work_after { work.new ≡ work_after work.old }
{
    calls::check_proof(file, bound, offered, answer, work)
}

#[unsafe(no_mangle)]
pub extern "C" fn hukolearu_education_search(
    file: &[u32],
    bound: u32,
    budget: u32,
    proof: &mut [u32],
    answer: &mut [u32],
    work: &mut [u32],
) -> Outcome
    ensures value { result ≡ (education_search (search_with file.now bound budget proof.old answer.old work.old)).outcome }
    ensures proof_after { proof.new ≡ at_front (education_search (search_with file.now bound budget proof.old answer.old work.old)).proof proof.old }
    ensures answer_after { answer.new ≡ at_front (education_search (search_with file.now bound budget proof.old answer.old work.old)).answer answer.old }
    ensures work_after { work.new ≡ work_after work.old }
{
    education::search(file, bound, budget, proof, answer, work)
}

#[unsafe(no_mangle)]
pub extern "C" fn hukolearu_education_check(
    file: &[u32],
    bound: u32,
    offered: &[u32],
    answer: &mut [u32],
    work: &mut [u32],
) -> Outcome
    ensures value { result ≡ (education_check (check_with file.now bound offered.now answer.old work.old)).outcome }
    ensures answer_after { answer.new ≡ at_front (education_check (check_with file.now bound offered.now answer.old work.old)).answer answer.old }
    ensures work_after { work.new ≡ work_after work.old }
{
    education::check_proof(file, bound, offered, answer, work)
}

#[unsafe(no_mangle)]
pub extern "C" fn hukolearu_restart_search(
    file: &[u32],
    bound: u32,
    budget: u32,
    proof: &mut [u32],
    answer: &mut [u32],
    work: &mut [u32],
) -> Outcome
    ensures value { result ≡ (search_on table_in (search_with file.now bound budget proof.old answer.old work.old)).outcome }
    ensures proof_after { proof.new ≡ at_front (search_on table_in (search_with file.now bound budget proof.old answer.old work.old)).proof proof.old }
    ensures answer_after { answer.new ≡ at_front (search_on table_in (search_with file.now bound budget proof.old answer.old work.old)).answer answer.old }
    ensures work_after { work.new ≡ work_after work.old }
{
    restart::calls::search(file, bound, budget, proof, answer, work)
}

#[unsafe(no_mangle)]
pub extern "C" fn hukolearu_restart_check(
    file: &[u32],
    bound: u32,
    offered: &[u32],
    answer: &mut [u32],
    work: &mut [u32],
) -> Outcome
    ensures value { result ≡ (check_on table_in (check_with file.now bound offered.now answer.old work.old)).outcome }
    ensures answer_after { answer.new ≡ at_front (check_on table_in (check_with file.now bound offered.now answer.old work.old)).answer answer.old }
    ensures work_after { work.new ≡ work_after work.old }
{
    restart::calls::check_proof(file, bound, offered, answer, work)
}

#[unsafe(no_mangle)]
pub extern "C" fn hukolearu_restart_education_search(
    file: &[u32],
    bound: u32,
    budget: u32,
    proof: &mut [u32],
    answer: &mut [u32],
    work: &mut [u32],
) -> Outcome
    ensures value { result ≡ (search_on seen_in (search_with file.now bound budget proof.old answer.old work.old)).outcome }
    ensures proof_after { proof.new ≡ at_front (search_on seen_in (search_with file.now bound budget proof.old answer.old work.old)).proof proof.old }
    ensures answer_after { answer.new ≡ at_front (search_on seen_in (search_with file.now bound budget proof.old answer.old work.old)).answer answer.old }
    ensures work_after { work.new ≡ work_after work.old }
{
    restart::calls::education_search(file, bound, budget, proof, answer, work)
}

#[unsafe(no_mangle)]
pub extern "C" fn hukolearu_restart_education_check(
    file: &[u32],
    bound: u32,
    offered: &[u32],
    answer: &mut [u32],
    work: &mut [u32],
) -> Outcome
    ensures value { result ≡ (check_on seen_in (check_with file.now bound offered.now answer.old work.old)).outcome }
    ensures answer_after { answer.new ≡ at_front (check_on seen_in (check_with file.now bound offered.now answer.old work.old)).answer answer.old }
    ensures work_after { work.new ≡ work_after work.old }
{
    restart::calls::education_check(file, bound, offered, answer, work)
}

#[unsafe(no_mangle)]
pub extern "C" fn hukolearu_slim(file: &[u32], slimmer: &mut [u32], numbers: &mut [u32]) -> Slimmed
    ensures value { result ≡ (slim_call file.now (length slimmer.old) (length numbers.old)).outcome }
    ensures slimmer_after { slimmer.new ≡ at_front (slim_call file.now (length slimmer.old) (length numbers.old)).file slimmer.old }
    ensures numbers_after { numbers.new ≡ at_front (slim_call file.now (length slimmer.old) (length numbers.old)).numbers numbers.old }
{
    slim::calls::slim(file, slimmer, numbers)
}

#[unsafe(no_mangle)]
pub extern "C" fn hukolearu_ask_desk(
    records: &[u32],
    day: u32,
    house: u32,
    first: u32,
    second: u32,
    third: u32,
) -> DeskValues
    ensures { result ≡ values_of (desk_says records.now day house first second third) }
{
    desk::values(desk::ask_desk(records, day, house, first, second, third))
}

#[unsafe(no_mangle)]
pub extern "C" fn hukolearu_smallest(
    file: &[u32],
    limit: u32,
    budget: u32,
    proof: &mut [u32],
    answer: &mut [u32],
    work: &mut [u32],
) -> Least
    ensures bound_value { result.bound ≡ (smallest_call (search_with file.now limit budget proof.old answer.old work.old)).bound }
    ensures outcome_value { result.outcome ≡ (smallest_call (search_with file.now limit budget proof.old answer.old work.old)).given.outcome }
    ensures proof_after { proof.new ≡ at_front (smallest_call (search_with file.now limit budget proof.old answer.old work.old)).given.proof proof.old }
    ensures answer_after { answer.new ≡ at_front (smallest_call (search_with file.now limit budget proof.old answer.old work.old)).given.answer answer.old }
    ensures work_after { work.new ≡ work_after work.old }
{
    smallest::smallest(file, limit, budget, proof, answer, work)
}

#[unsafe(no_mangle)]
pub extern "C" fn hukolearu_read(text: &[u8], file: &mut [u32]) -> TextRead
    ensures { Reads text.now file.old result file.new }
{
    tptp::call::read(text, file)
}

#[unsafe(no_mangle)]
pub extern "C" fn hukolearu_write(file: &[u32], text: &mut [u8]) -> TextWritten
    ensures value { result ≡ (write_call file.now (length text.old)).outcome }
    ensures text_after { text.new ≡ at_front (write_call file.now (length text.old)).text text.old }
{
    clauselines::call::write(file, text)
}

#[unsafe(no_mangle)]
pub extern "C" fn hukolearu_listing(
    file: &[u32],
    bound: u32,
    offered: &[u32],
    listing: &mut [u8],
    work: &mut [u32],
) -> TextWritten
    ensures value { result ≡ (listing_call (listing_with file.now bound offered.now listing.old work.old)).outcome }
    ensures listing_after { listing.new ≡ at_front (listing_call (listing_with file.now bound offered.now listing.old work.old)).text listing.old }
    ensures work_after { work.new ≡ work_after work.old }
{
    listing::call::listing(file, bound, offered, listing, work)
}

#[unsafe(no_mangle)]
pub extern "C" fn hukolearu_season(
    table: &[u32],
    entries: &[u32],
    list: &[u32],
    proof: &mut [u32],
    answer: &mut [u32],
    work: &mut [u32],
) -> Report
    ensures value { result ≡ report_of (season_with table.now entries.now list.now proof.old answer.old work.old) }
    ensures proof_after { proof.new ≡ proof_after (season_with table.now entries.now list.now proof.old answer.old work.old) proof.old }
    ensures answer_after { answer.new ≡ answer_after (season_with table.now entries.now list.now proof.old answer.old work.old) answer.old }
    ensures work_after { work.new ≡ work_left (season_with table.now entries.now list.now proof.old answer.old work.old) work.old }
{
    season::season(table, entries, list, proof, answer, work)
}
