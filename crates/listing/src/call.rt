// The public call: the checker's refusals, then the clauses behind the proof, if the listing holds them.
ghost use Rattle.std.specs.Prelude.{◌≡◌, length};
ghost use Rattle.table.specs.Build.{at_front};
ghost use Rattle.table.specs.File.{table_in};
ghost use Rattle.hukolearu.specs.Door.{work_after};
ghost use Rattle.slim.specs.Walking.{Ready};
ghost use Rattle.clauselines.specs.Call.{if_it_fits};
ghost use Rattle.listing.specs.Call.{accepts, listing_call, listing_with};
ghost use Rattle.listing.specs.Counting.{Counters, counted_text};

use crate::{counting, lines};
use clauselines::TextWritten;
use clauselines::call::refused;
use hukolearu::{calls, status};
use words::fields;

// The checker accepts the proof, whether its answer fits or not.
fn accepts(status: u32) -> bool
    ensures { result ≡ accepts status }
{
    status == status::DONE || status == status::ANSWER_TOO_LONG
}

// The lines are counted first, and written if they fit.
fn listed(file: &[u32], question: usize, copies: &[u32], listing: &mut [u8]) -> TextWritten
    requires { Ready file.now question × Counters copies.now }
    ensures value { result ≡ (if_it_fits (counted_text copies.now (table_in file.now)) (length listing.old)).outcome }
    ensures listing_after { listing.new ≡ at_front (if_it_fits (counted_text copies.now (table_in file.now)) (length listing.old)).text listing.old }
{
    let mut nowhere = [0u8; 0];
    let bytes = lines::write(file, question, copies, &mut nowhere);
    if listing.len() < bytes {
        return refused(status::ANSWER_TOO_LONG, 0);
    }
    lines::write(file, question, copies, listing);
    TextWritten {
        status: status::DONE,
        place: 0,
        bytes: bytes as u32,
    }
}

// No answer is written: the check is lent no room for one.
pub fn listing(
    file: &[u32],
    bound: u32,
    offered: &[u32],
    listing: &mut [u8],
    work: &mut [u32],
) -> TextWritten
    ensures value { result ≡ (listing_call (listing_with file.now bound offered.now listing.old work.old)).outcome }
    ensures listing_after { listing.new ≡ at_front (listing_call (listing_with file.now bound offered.now listing.old work.old)).text listing.old }
    ensures work_after { work.new ≡ work_after work.old }
{
    let mut nowhere = [0u32; 0];
    let outcome = calls::check_proof(file, bound, offered, &mut nowhere, work);
    if !accepts(outcome.status) {
        return refused(outcome.status, outcome.place);
    }
    let mut copies = [0u32; 512];
    counting::count(offered, &mut copies);
    let question = fields::wide(file[file.len() - 4]);
    listed(file, question, &copies, listing)
}
