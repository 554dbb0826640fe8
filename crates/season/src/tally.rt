// The six results, and how many questions came to each.
ghost use Rattle.std.specs.Prelude.{◌≡◌};
ghost use Rattle.season.specs.Season.{result_of};
ghost use Rattle.season.specs.Asking.{Few, counting, number_of};

use crate::Report;
use crate::ask::Ended;
use hukolearu::{Outcome, status};

// What a question came to.
#[derive(Clone, Copy)]
pub enum Kind {
    Definite,
    Indefinite,
    NoneFound,
    RanOut,
    TooLong,
    Refused,
}

// An answer is definite when it has one disjunct.
#[tactic(auto, using(crate::proofs::Results::result_laws))]
pub(crate) fn result_of(outcome: Outcome) -> Kind
    ensures { number_of result ≡ result_of outcome }
{
    match outcome.status {
        status::DONE if outcome.disjuncts == 1 => Kind::Definite,
        status::DONE => Kind::Indefinite,
        status::NONE_FOUND => Kind::NoneFound,
        status::RAN_OUT => Kind::RanOut,
        status::ANSWER_TOO_LONG => Kind::TooLong,
        _ => Kind::Refused,
    }
}

// One question more.
pub(crate) fn counting(report: Report, ended: Ended) -> Report
    requires { Few 16384 report }
    ensures { result ≡ counting report (number_of ended.result) ended.tries }
{
    let tries = report.tries + ended.tries as u64;
    match ended.result {
        Kind::Definite => Report {
            definite: report.definite + 1,
            tries,
            ..report
        },
        Kind::Indefinite => Report {
            indefinite: report.indefinite + 1,
            tries,
            ..report
        },
        Kind::NoneFound => Report {
            none: report.none + 1,
            tries,
            ..report
        },
        Kind::RanOut => Report {
            ranout: report.ranout + 1,
            tries,
            ..report
        },
        Kind::TooLong => Report {
            toolong: report.toolong + 1,
            tries,
            ..report
        },
        Kind::Refused => Report {
            refused: report.refused + 1,
            tries,
            ..report
        },
    }
}
