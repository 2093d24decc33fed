//! The work of each command.
ghost use Rattle.std.specs.Prelude.{◌≡◌, ◌⊎◌, false, true};
ghost use Rattle.sg_app.specs.Touches.{asks_keeper, changes_rows, is_report, reads_input, takes_links};
ghost use Rattle.sg_words.specs.declared.command.Command.TheVariants.{Serve};
ghost use Rattle.sg_words.specs.declared.service.Service.{Service as ServiceSeen};
ghost use Rattle.sg_app.specs.Says.{CommandSays};
ghost use Rattle.sg_words.specs.Command.{IsSized};

use sg_clerk::calls::serve;
use sg_clerk::scans::answer_scans;
use sg_clerk::{answer_asks, init, record, sheet};
use sg_handed::answer_openings;
use sg_keeper::Keeper;
use sg_links::Links;
use sg_outside::{Outcome, Sink, Source};
use sg_reports::{Report, write_report};
use sg_sample::sample;
use sg_words::Command;
use std::alloc::Global;

/// Does what a command asks for, and says how that ended.
pub(crate) fn obey<S: Source, K: Keeper, L: Links, O: Sink>(
    alloc: Global,
    command: Command,
    input: &mut S,
    keeper: &mut K,
    links: &mut L,
    out: &mut O,
) -> Outcome
    requires sized { IsSized command }
    requires closed { L.is_open links.old ≡ false }
    ensures says { CommandSays command result (K.tells keeper.old) (K.rows keeper.old) (K.rows keeper.new)
        (record { left = S.left input.old; board = L.board links.old; written = O.written out.old; read_faults = S.faults input.old; link_faults = L.faults links.old; write_faults = O.faults out.old; keep_faults = K.faults keeper.old })
        (record { left = S.left input.new; board = L.board links.new; written = O.written out.new; read_faults = S.faults input.new; link_faults = L.faults links.new; write_faults = O.faults out.new; keep_faults = K.faults keeper.new }) }
    ensures closed { L.is_open links.new ≡ false }
    ensures told { K.tells keeper.old → K.tells keeper.new }
    ensures unread { reads_input command ≡ false → input.new ≡ input.old }
    ensures unkept { asks_keeper command ≡ false → keeper.new ≡ keeper.old }
    ensures unlinked { takes_links command ≡ false → links.new ≡ links.old }
    ensures unwritten { is_report command ≡ true → (result ≡ Outcome.ReadFailed) ⊎ (result ≡ Outcome.NoMemory) → out.new ≡ out.old }
    ensures unopened { (asked : ServiceSeen) → command ≡ Serve asked → (result ≡ Outcome.KeeperFailed) ⊎ (result ≡ Outcome.Refused) ⊎ (result ≡ Outcome.Damaged) → links.new ≡ links.old }
    ensures same { changes_rows command ≡ false → K.tells keeper.old → K.rows keeper.new ≡ K.rows keeper.old }
{
    match command {
        Command::Audit => write_report(alloc, Report::Audit, input, out),
        Command::Init => init(alloc, input, keeper, out),
        Command::Sheet => sheet(alloc, keeper, out),
        Command::Do => answer_asks(alloc, input, keeper, out),
        Command::Scans => answer_scans(alloc, input, keeper, out),
        Command::Serve(asked) => serve(alloc, asked.port, asked.count, links, keeper, out),
        Command::Record => record(alloc, keeper, out),
        Command::Openings => answer_openings(alloc, keeper, out),
        Command::Sample(asked) => sample(alloc, asked, out),
        Command::Recount => write_report(alloc, Report::Recount, input, out),
        Command::Odds => write_report(alloc, Report::Odds, input, out),
        Command::County => write_report(alloc, Report::County, input, out),
    }
}
