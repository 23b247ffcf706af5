ghost use Rattle.std.specs.Prelude.{◌≡◌, List, Some, None, MatchResult};
ghost use Rattle.mt_dump.specs.Line.{Reading};
ghost use Rattle.mt_dump.specs.Reader.{HasRead};
ghost use Rattle.mt_script.specs.Head.{head_step};
ghost use Rattle.mt_script.specs.Script.{Rest, offence_after, script_offence};

use crate::head::Head;
use crate::{Offence, read_end};
use mt_text::{Line, Lines, end_place};

// Takes one line of a script, before or behind the dump's end.
fn take_line(head: &mut Head, line: &Line<'_>) -> Result<(), Offence>
    ensures { (before : List Reading) → HasRead head.old.dump before → MatchResult result
        (λ _. (after : List Reading) × HasRead head.new.dump after × ((rest : Rest) → offence_after head.old.setup rest (head_step head.old.setup before line.now.number line.now.bytes.now) ≡ rest head.new.setup after))
        (λ offence. (rest : Rest) → offence_after head.old.setup rest (head_step head.old.setup before line.now.number line.now.bytes.now) ≡ Some offence) }
{
    match head.take(line) {
        Ok(None) => Ok(()),
        Ok(Some(dump)) => {
            head.setup.dumped(dump);
            Ok(())
        }
        Err(offence) => Err(offence),
    }
}

fn read_lines(source: &[u8]) -> Result<(), Offence>
    ensures { MatchResult result (λ _. script_offence source.now ≡ None) (λ offence. script_offence source.now ≡ Some offence) }
{
    let mut head = Head::new();
    let mut lines = Lines::of(source);
    'lines: while let Some(line) = lines.next_line() {
        take_line(&mut head, &line)?;
    }
    match read_end(&head.setup, end_place(source)) {
        Ok(()) => Ok(()),
        Err(fault) => Err(Offence::Script(fault)),
    }
}

/// The first offence of a whole script, whose commands are not run.
pub fn first_offence(source: &[u8]) -> Option<Offence>
    ensures { result ≡ script_offence source.now }
{
    match read_lines(source) {
        Ok(()) => None,
        Err(offence) => Some(offence),
    }
}
