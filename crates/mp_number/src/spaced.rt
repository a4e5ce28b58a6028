// Numbers in a row, with single spaces.
ghost use Rattle.std.specs.Prelude.{◌≡◌, ◌++◌, OnOk};
ghost use Rattle.mp_number.specs.Spaced.{behind_spaces, spaced};

use crate::memory::NoMemory;
use crate::printing::{push_micro, push_whole};
use std::marker::Model;

/// A number that has one text.
pub trait Printed {
    ghost use Rattle.std.specs.Prelude.{◌≡◌, ◌++◌, ℕ, List, OnErr, OnOk};

    ghost text: { Self → List ℕ };

    /// Appends the text. Without memory for it the vector stays as it was.
    fn push_to(&self, to: &mut Vec<u8>) -> Result<(), NoMemory>
        ensures ok { OnOk result (to.new.items ≡ to.old.items ++ text self.now) }
        ensures err { OnErr result (to.new.items ≡ to.old.items) };
}

impl Printed for u32 {
    ghost use Rattle.std.specs.Prelude.{decimal};

    ghost text = { λ n. decimal n };

    fn push_to(&self, to: &mut Vec<u8>) -> Result<(), NoMemory> {
        push_whole(to, i128::from(*self))
    }
}

impl Printed for i32 {
    ghost use Rattle.std.specs.Fmt.{signed_decimal};

    ghost text = { λ z. signed_decimal z };

    fn push_to(&self, to: &mut Vec<u8>) -> Result<(), NoMemory> {
        push_whole(to, i128::from(*self))
    }
}

/// A number in millionths.
#[derive(Clone, Copy, Debug, PartialEq, Eq)]
pub struct Micro(pub i64);

impl Model for Micro {
    ghost use Rattle.std.specs.Prelude.{ℤ};

    ghost Value = { ℤ };

    ghost view = { λ m. m.0 };

    ghost inverse = { λ z. record { 0 = z } };
}

impl Printed for Micro {
    ghost use Rattle.mp_number.specs.Number.{micro_text};

    ghost text = { λ z. micro_text z };

    fn push_to(&self, to: &mut Vec<u8>) -> Result<(), NoMemory> {
        push_micro(to, self.0)
    }
}

/// Appends numbers with a space between each two.
pub fn push_spaced<N: Printed>(to: &mut Vec<u8>, numbers: &[N]) -> Result<(), NoMemory>
    ensures { OnOk result (to.new.items ≡ to.old.items ++ spaced N.text numbers.now) }
{
    let [first, rest @ ..] = numbers else {
        return Ok(());
    };
    first.push_to(to)?;
    push_behind_spaces(to, rest)
}

/// Appends numbers, each behind a space.
pub fn push_behind_spaces<N: Printed>(to: &mut Vec<u8>, numbers: &[N]) -> Result<(), NoMemory>
    ensures { OnOk result (to.new.items ≡ to.old.items ++ behind_spaces N.text numbers.now) }
{
    for number in numbers {
        to.push(b' ')?;
        number.push_to(to)?;
    }
    Ok(())
}
