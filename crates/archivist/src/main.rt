// The program for people, installed as `hukolearu`. It reads arguments and files and writes; what it writes is made by proved functions of the libraries.
#![tactic(auto)]

mod arguments;
mod check;
mod converting;
mod files;
mod intake;
mod named;
mod reporting;
mod streams;
mod telling;

use std::io;

fn main(rt: HostRuntime) -> io::Result<()> {
    let rt = &rt;
    if arguments::is(rt, 1, b"ask") {
        return telling::ask(rt, arguments::asked(rt, 1));
    }
    if arguments::is(rt, 1, b"check") {
        return check::check(rt, false, arguments::offered(rt));
    }
    if arguments::is(rt, 1, b"draw") {
        return check::check(rt, true, arguments::offered(rt));
    }
    if arguments::is(rt, 1, b"words") {
        return converting::words(rt, arguments::asked(rt, 1));
    }
    if arguments::is(rt, 1, b"text") {
        return converting::text(rt, arguments::asked(rt, 1));
    }
    if arguments::is(rt, 1, b"slim") {
        return converting::slim(rt, arguments::asked(rt, 1));
    }
    if arguments::is(rt, 1, b"season") {
        return reporting::season(rt, arguments::asked(rt, 2));
    }
    if arguments::is(rt, 1, b"desk") {
        return intake::desk(rt);
    }
    arguments::usage(rt)
}
