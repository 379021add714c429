//! A stack of at most 64 numbers.
ghost use Rattle.std.specs.Prelude.{◌≡◌, ◌≤◌, ◌<◌, ◌-◌, [], ◌∷◌, length, drop, slice_index_or};
ghost use Rattle.expr_eval.specs.Results.{onto, outcome};

use std::marker::Model;

/// Numbers, which contracts see as a list with the top first.
#[derive(Drop)]
pub(crate) struct Stack {
    numbers: [u64; 64],
    len: usize,
}

impl Model for Stack {
    ghost use Rattle.std.specs.Prelude.{List, ℕ, take, reverse, ◌≤◌};

    ghost Value = { List ℕ };

    ghost view = { λ s. reverse (take s.len s.numbers) };

    ghost invariant = { λ s. s.len ≤ 64 };
}

impl Stack {
    /// No number.
    pub(crate) fn new() -> Stack
        ensures { result ≡ [] }
    {
        Stack {
            numbers: [0; 64],
            len: 0,
        }
    }

    /// The number so far below the top, or 0 where there is none.
    pub(crate) fn nth(&self, depth: usize) -> u64
        ensures { result ≡ slice_index_or self.now depth 0 }
    {
        if depth < self.len {
            self.numbers[self.len - 1 - depth]
        } else {
            0
        }
    }

    /// Drops so many numbers from the top.
    pub(crate) fn discard(&mut self, count: usize)
        requires { count ≤ length self.old }
        ensures { self.new ≡ drop count self.old }
    {
        self.len -= count;
    }

    /// Puts a number on the top.
    pub(crate) fn push(&mut self, number: u64)
        requires { length self.old < 64 }
        ensures { self.new ≡ number ∷ self.old }
    {
        self.numbers[self.len] = number;
        self.len += 1;
    }

    /// Puts a number, if there is one, in the place of so many from the top. False where there is none.
    pub(crate) fn put(&mut self, count: usize, number: Option<u64>) -> bool
        requires enough { count ≤ length self.old }
        requires room { length self.old - count < 64 }
        ensures { outcome result self.new ≡ onto (drop count self.old) number }
    {
        match number {
            Some(number) => {
                self.discard(count);
                self.push(number);
                true
            }
            None => false,
        }
    }

    /// Puts the top and the second in each other's place.
    pub(crate) fn swap(&mut self)
        requires enough { 2 ≤ length self.old }
        requires room { length self.old ≤ 64 }
        ensures { self.new ≡ slice_index_or self.old 1 0 ∷ slice_index_or self.old 0 0 ∷ drop 2 self.old }
    {
        let top = self.nth(0);
        let second = self.nth(1);
        self.discard(2);
        self.push(top);
        self.push(second);
    }

    /// Puts the top third, and the second and the third one place up.
    pub(crate) fn rotate(&mut self)
        requires enough { 3 ≤ length self.old }
        requires room { length self.old ≤ 64 }
        ensures { self.new ≡ slice_index_or self.old 1 0 ∷ slice_index_or self.old 2 0 ∷ slice_index_or self.old 0 0 ∷ drop 3 self.old }
    {
        let top = self.nth(0);
        let second = self.nth(1);
        let third = self.nth(2);
        self.discard(3);
        self.push(top);
        self.push(third);
        self.push(second);
    }
}
