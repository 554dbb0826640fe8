// The first look: every number in range, no words left over, at most 500 records.
ghost use Rattle.std.specs.Prelude.{◌≡◌};
ghost use Rattle.desk.specs.Records.{between, record_in_range, words_in_range, acceptable};

fn between(low: u32, n: u32, high: u32) -> bool
    ensures { result ≡ between low high n }
{
    low <= n && n <= high
}

#[tactic(auto, unfolding(crate::specs::Records::record_in_range))]
fn record_in_range(day: u32, house: u32, slot: u32) -> bool
    ensures { result ≡ record_in_range day house slot }
{
    between(1, day, 366) && between(1, house, 999) && between(1, slot, 3)
}

fn words_in_range(words: &[u32]) -> bool
    ensures { result ≡ words_in_range words.now }
{
    let mut i = 0;
    while 3 <= words.len() - i {
        if !record_in_range(words[i], words[i + 1], words[i + 2]) {
            return false;
        }
        i += 3;
    }
    i == words.len()
}

#[tactic(auto, unfolding(crate::specs::Records::acceptable))]
pub(crate) fn acceptable(records: &[u32], day: u32, house: u32) -> bool
    ensures { result ≡ acceptable records.now day house }
{
    between(1, day, 366)
        && between(1, house, 999)
        && records.len() <= 1500
        && words_in_range(records)
}
