ghost use Rattle.std.specs.Prelude.{◌≡◌, ◌≢◌, None, Some, IfErr, IfOk, IsErrOf, drop, map, string_bytes};
ghost use Rattle.std.specs.IoError.{error_kind};
ghost use Rattle.std.specs.Process.{exit_status};
ghost use Rattle.std.specs.Vec.Iter.{into_iter_items};
ghost use Rattle.mt_ports.specs.Exit.{code};
ghost use Rattle.mt_output.specs.Program.{texts_of};

use mt_ports::Status;
use std::alloc::{AllocError, Global};
use std::env::Args;
use std::io::{self, ErrorKind};
use std::process::ExitCode;

/// Why a program has no words.
#[derive(Clone, Copy)]
pub enum NoWords {
    /// An argument is no text.
    NoText,
    /// Memory was refused to the arguments or to the list of words.
    NoMemory,
}

// The arguments behind the program's name, which are the words of the command line.
fn words_behind_name(alloc: Global, args: Args) -> Result<Vec<String>, AllocError>
    ensures { IfOk result (λ words. words.items ≡ drop 1 (into_iter_items args)) }
{
    args.skip(1).collect(alloc)
}

/// Returns the words of the command line.
pub fn words_from(alloc: Global, args: io::Result<Args>) -> Result<Vec<String>, NoWords>
    ensures words { IfOk result (λ words. texts_of args ≡ Some (map string_bytes words.items)) }
    ensures none { IsErrOf result NoWords.NoText → texts_of args ≡ None }
    ensures no_memory { IfErr args (λ error. error_kind error ≡ ErrorKind.OutOfMemory → IsErrOf result NoWords.NoMemory) }
    ensures no_text { IfErr args (λ error. error_kind error ≢ ErrorKind.OutOfMemory → IsErrOf result NoWords.NoText) }
{
    match args {
        Ok(args) => match words_behind_name(alloc, args) {
            Ok(words) => Ok(words),
            Err(_) => Err(NoWords::NoMemory),
        },
        Err(error) if error.kind() == ErrorKind::OutOfMemory => Err(NoWords::NoMemory),
        Err(_) => Err(NoWords::NoText),
    }
}

/// The number of a status, which a program ends with.
pub fn exit_code(status: Status) -> ExitCode
    ensures { exit_status result ≡ code status }
{
    ExitCode::from(status.code())
}
