// Why a program ends before its work is done: what `?` hands up to its `main`.
ghost use Rattle.std.specs.Prelude.{◌≡◌};
ghost use Rattle.ending.specs.declared.cause.Stop.TheVariants.{Refused};

use answer::Refusal;
use std::io::Error;

#[derive(Clone, Copy)]
pub enum Stop<'a> {
    // An error of the system's, after the name of what it was about: any bytes, as a file may have them.
    At(&'a [u8], Error),
    // One of the numbered refusals.
    Refused(Refusal),
}

impl<'a> From<Refusal> for Stop<'a> {
    ghost from_gives = { λ refusal stop. stop ≡ Refused refusal };

    fn from(refusal: Refusal) -> Stop<'a> {
        Stop::Refused(refusal)
    }
}
