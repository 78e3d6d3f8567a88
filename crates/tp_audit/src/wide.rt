//! Whole numbers of any size.
ghost use Rattle.std.specs.Prelude.{◌≡◌, length, max, pos, ◌+ℤ◌, IfOk};
ghost use Rattle.std.specs.Ordering.{int_eq};
ghost use Rattle.tp_audit.specs.mirrors.Digits.{number_of};
ghost use Rattle.tp_model.specs.Queries.{with_sign};
ghost use Rattle.tp_model.specs.SerialRun.{number_at};

use crate::total::{column, nothing};
use std::alloc::Global;
use std::marker::Model;
use tp_types::{List, NoMemory, TryClone};

/// A whole number of any size. Contracts see the number.
#[derive(Drop)]
pub struct Wide {
    /// Digits to the base 2^128, the lowest first. Each is an i128, so a number has one form but for zeros at its end.
    digits: List<i128>,
}

impl Model for Wide {
    ghost use Rattle.std.specs.Prelude.{ℤ};
    ghost use Rattle.tp_audit.specs.mirrors.Digits.{number_of};

    ghost Value = { ℤ };

    ghost view = { λ w. number_of w.digits };
}

fn digit_at(digits: &[i128], at: usize) -> i128
    ensures { result ≡ number_at digits.now at }
{
    match digits.get(at) {
        None => 0,
        Some(digit) => *digit,
    }
}

fn longer(one: &[i128], other: &[i128]) -> usize
    ensures { result ≡ max (length one.now) (length other.now) }
{
    if one.len() < other.len() {
        other.len()
    } else {
        one.len()
    }
}

fn digits_of_sum(
    alloc: Global,
    one: &[i128],
    other: &[i128],
    minus: bool,
) -> Result<List<i128>, NoMemory>
    ensures { IfOk result (λ made.
        number_of made ≡ number_of one.now +ℤ with_sign minus (number_of other.now)) }
{
    let mut made = List::new(alloc);
    let mut total = nothing();
    for at in 0..longer(one, other) {
        total = column(total.wraps, digit_at(one, at), digit_at(other, at), minus);
        made.push(total.part)?;
    }
    made.push(total.wraps)?;
    Ok(made)
}

fn is_of_digits(digits: &[i128], value: i128) -> bool
    ensures { result ≡ int_eq value (number_of digits.now) }
{
    let mut wanted = value;
    for digit in digits {
        if *digit != wanted {
            return false;
        }
        wanted = 0;
    }
    wanted == 0
}

impl Wide {
    pub fn nothing(alloc: Global) -> Wide
        ensures { result ≡ pos 0 }
    {
        Wide {
            digits: List::new(alloc),
        }
    }

    pub fn of(alloc: Global, value: i128) -> Result<Wide, NoMemory>
        ensures { IfOk result (λ made. made ≡ value) }
    {
        Ok(Wide {
            digits: List::of_one(alloc, value)?,
        })
    }

    /// The sum with another number, or with its negative.
    pub fn plus(&self, alloc: Global, other: &Wide, minus: bool) -> Result<Wide, NoMemory>
        ensures { IfOk result (λ made. made ≡ self.now +ℤ with_sign minus other.now) }
    {
        Ok(Wide {
            digits: digits_of_sum(
                alloc,
                self.digits.as_slice(),
                other.digits.as_slice(),
                minus,
            )?,
        })
    }

    pub fn is(&self, value: i128) -> bool
        ensures { result ≡ int_eq value self.now }
    {
        is_of_digits(self.digits.as_slice(), value)
    }
}

impl TryClone for Wide {
    fn try_clone(&self, alloc: Global) -> Result<Self, NoMemory> {
        Ok(Wide {
            digits: self.digits.try_clone(alloc)?,
        })
    }
}
