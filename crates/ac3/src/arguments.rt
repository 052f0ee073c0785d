//! The program's arguments, as words.
ghost use Rattle.std.specs.Prelude.{◌≡◌, ◌≢◌, drop, IfOk};
ghost use Rattle.std.specs.Vec.Iter.{into_iter_items};
ghost use Rattle.ac_words.specs.declared.fault.WordsFault.TheVariants.{Usage, NoMemory};

use ac_app::WordsFault;
use std::alloc::{AllocError, Global};
use std::env::Args;
use std::io::ErrorKind;

/// The words behind the program's own name.
pub fn behind_name(alloc: Global, arguments: Args) -> Result<Vec<String>, AllocError>
    ensures { IfOk result (λ words. words.items ≡ drop 1 (into_iter_items arguments)) }
{
    arguments.skip(1).collect(alloc)
}

/// Why there are no words, where the system gives no arguments: one is no text, or memory was wanting.
pub fn fault_of(kind: ErrorKind) -> WordsFault
    ensures memory { kind ≡ ErrorKind.OutOfMemory → result ≡ WordsFault.NoMemory }
    ensures usage { kind ≢ ErrorKind.OutOfMemory → result ≡ WordsFault.Usage }
{
    match kind {
        ErrorKind::OutOfMemory => WordsFault::NoMemory,
        _ => WordsFault::Usage,
    }
}
