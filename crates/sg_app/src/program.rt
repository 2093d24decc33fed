//! The program over any source, keeper, links and sink: its words, and the status that it ends with.
ghost use Rattle.std.specs.Prelude.{◌≡◌, ◌⊎◌, false, true, None, Some, IfSome};
ghost use Rattle.sg_outside.specs.Streams.{seen};
ghost use Rattle.sg_outside.specs.TextLines.{lines_of};
ghost use Rattle.sg_clerk.specs.Laws.{KeepsPosted};
ghost use Rattle.sg_words.specs.Command.{command_in};
ghost use Rattle.sg_app.specs.Headline.{Headline, HistoriesGetYes};
ghost use Rattle.sg_app.specs.Says.{Ended};
ghost use Rattle.sg_app.specs.Touches.{asks_keeper, is_report, reads_input, takes_links};
ghost use Rattle.sg_words.specs.declared.command.Command.{Command as CommandSeen};
ghost use Rattle.sg_words.specs.declared.service.Service.{Service as ServiceSeen};

use crate::work::obey;
use sg_keeper::Keeper;
use sg_links::Links;
use sg_outside::{Sink, Source};
use sg_plan::{Items, Word};
use sg_words::{Command, command_of};
use std::alloc::Global;

/// Runs the command that the words after the program's name ask for, and answers the status to end with.
pub fn run<S: Source, K: Keeper, L: Links, O: Sink>(
    alloc: Global,
    words: &Items<Word>,
    input: &mut S,
    keeper: &mut K,
    links: &mut L,
    out: &mut O,
) -> u8
    // No connection is current before, nor behind it.
    requires { L.is_open links.old ≡ false }
    ensures closed { L.is_open links.new ≡ false }
    // Status 2 comes exactly where the words are no command's. Then nothing is read, kept, taken or written.
    ensures form { result ≡ 2 → command_in words.now ≡ None }
    ensures refused { command_in words.now ≡ None → result ≡ 2 }
    ensures untouched { command_in words.now ≡ None → (input.new ≡ input.old) × (keeper.new ≡ keeper.old) × (links.new ≡ links.old) × (out.new ≡ out.old) }
    // Only the commands that the table `touched` says so of read the input, ask the keeper, and take connections.
    ensures unread { (command : CommandSeen) → command_in words.now ≡ Some command → reads_input command ≡ false → input.new ≡ input.old }
    ensures unkept { (command : CommandSeen) → command_in words.now ≡ Some command → asks_keeper command ≡ false → keeper.new ≡ keeper.old }
    ensures unlinked { (command : CommandSeen) → command_in words.now ≡ Some command → takes_links command ≡ false → links.new ≡ links.old }
    // A keeper that tells its rows goes on telling them.
    ensures told { K.tells keeper.old → K.tells keeper.new }
    // With `audit`, where the input tells its bytes: it answers yes exactly when the bytes read are a whole record whose
    // openings match their commitments and whose opened halves agree; then, for every printing and every completion that
    // opens no commitment twice, each R instance has at least as many rows altered in their unopened halves as any posted
    // total of its race differs from the count of posted codes; every unaltered office run gets yes.
    ensures headline { command_in words.now ≡ Some Command.Audit → IfSome (S.left input.old) (λ bytes. Headline (lines_of bytes) result (seen (S.left input.old) (S.faults input.old)) (seen (S.left input.new) (S.faults input.new))
        (seen (O.written out.old) (O.faults out.old)) (seen (O.written out.new) (O.faults out.new))) }
    // So do the acts of an office: each unaltered history tells an unaltered run.
    ensures histories { command_in words.now ≡ Some Command.Audit → IfSome (S.left input.old) (λ bytes. HistoriesGetYes (lines_of bytes) result (seen (S.left input.old) (S.faults input.old)) (seen (S.left input.new) (S.faults input.new))
        (seen (O.written out.old) (O.faults out.old)) (seen (O.written out.new) (O.faults out.new))) }
    // The status says how the command ended, by a relation for each command: what was read, what the rows are, and what was
    // written. Where no count of faults rose, it tells no failure. What changes no rows, by that table, leaves them as they are.
    ensures ended { (command : CommandSeen) → command_in words.now ≡ Some command → Ended command result (K.tells keeper.old) (K.rows keeper.old) (K.rows keeper.new)
        (record { left = S.left input.old; board = L.board links.old; written = O.written out.old; read_faults = S.faults input.old; link_faults = L.faults links.old; write_faults = O.faults out.old; keep_faults = K.faults keeper.old })
        (record { left = S.left input.new; board = L.board links.new; written = O.written out.new; read_faults = S.faults input.new; link_faults = L.faults links.new; write_faults = O.faults out.new; keep_faults = K.faults keeper.new }) }
    // After a read that failed, and where memory was wanted, what reports on the input leaves the output as it was.
    ensures unwritten { (command : CommandSeen) → command_in words.now ≡ Some command → is_report command ≡ true → (result ≡ 3) ⊎ (result ≡ 9) → out.new ≡ out.old }
    // Where rows are told that are an office's, they stay that office's, and what `record` writes of them only grows.
    ensures grows { K.tells keeper.old → KeepsPosted (K.rows keeper.old) (K.rows keeper.new) }
    // Where no office is opened, `serve` leaves the links as they were.
    ensures unopened { (asked : ServiceSeen) → command_in words.now ≡ Some (Command.Serve asked) → (result ≡ 5) ⊎ (result ≡ 7) ⊎ (result ≡ 8) → links.new ≡ links.old }
{
    match command_of(words) {
        Some(command) => obey(alloc, command, input, keeper, links, out).status(),
        None => 2,
    }
}
