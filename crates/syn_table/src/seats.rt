//! Seats that split and seats that join.

ghost use Rattle.std.specs.Prelude.{◌≡◌, ◌+◌, ◌≤◌, [], ◌∷◌, ◌++◌, length, IfErr, IfOk};
ghost use Rattle.syn_table.specs.Seating.{IsOf, known_of, view_of};
ghost use Rattle.syn_table.specs.Splitting.{AreNumbers, TellsNumbers, all_but_last, last_of, spent_known, split_from, with_joined, without_last};

use crate::{Known, Seat, Shared};
use arrayvec::ArrayVec;
use atomic_table::{Join, Play, Split};
use std::alloc::AllocError;

// The last of the seat's numbers goes on.
pub struct HandsOn;

impl Split<Known> for HandsOn {
    ghost left = { without_last };

    ghost right = { split_from };
}

// A seat takes in another, which is spent.
pub struct TakesIn;

impl Join<Known> for TakesIn {
    ghost both = { with_joined };

    ghost spent = { spent_known };
}

// A load of the seats' word, which tells what numbers a seat can have.
pub struct SeesNumbers;

impl Play<u8, Known> for SeesNumbers {
    ghost then = { TellsNumbers };
}

// Takes the last number off, into a list of its own.
fn hand_on(numbers: &mut ArrayVec<u8, 64>) -> ArrayVec<u8, 64>
    requires { 1 ≤ length numbers.old.items }
    ensures left { numbers.new.items ≡ all_but_last numbers.old.items }
    ensures last { result.items ≡ last_of numbers.old.items ∷ [] }
{
    let mut last = ArrayVec::new();
    if let Some(number) = numbers.pop() {
        last.push(number);
    }
    last
}

// The numbers of a seat that was joined go behind those that the keeper has.
fn append(numbers: &mut ArrayVec<u8, 64>, more: &ArrayVec<u8, 64>)
    requires { length numbers.old.items + length more.now.items ≤ 64 }
    ensures { numbers.new.items ≡ numbers.old.items ++ more.now.items }
{
    for number in more.as_slice() {
        numbers.push(*number);
    }
}

impl Shared {
    // The seat's numbers are ones that a seat can have.
    fn see_numbers(&self, token: &mut atomic_table::Seat<u8, Known>)
        requires { token.old.table_id ≡ self.now.table.shared.table_id }
        ensures table { token.new.table_id ≡ token.old.table_id }
        ensures same { token.new.me ≡ token.old.me }
        ensures numbers { AreNumbers token.new.me.0.numbers }
    {
        self.table.shared.load::<SeesNumbers>(token, 0);
    }

    /// A new seat, which gets the last of this seat's numbers and knows nothing yet. The answer leaves room for want of
    /// memory, but a split takes none.
    pub fn split(&self, seat: &mut Seat) -> Result<Seat, AllocError>
        requires table { IsOf seat.old self.now }
        requires numbers { 2 ≤ length (known_of seat.old).numbers }
        ensures table { IsOf seat.new self.now }
        ensures fewer { IfOk result (λ _. length (known_of seat.new).numbers + 1 ≡ length (known_of seat.old).numbers) }
        ensures left { IfOk result (λ _. known_of seat.new ≡ without_last (known_of seat.old)) }
        ensures new_table { IfOk result (λ new. IsOf new self.now) }
        ensures new { IfOk result (λ new. known_of new ≡ split_from (known_of seat.old)) }
        ensures refused { IfErr result (λ _. known_of seat.new ≡ known_of seat.old) }
    {
        self.see_numbers(&mut seat.token);
        let token = self.table.shared.split_seat::<HandsOn>(&mut seat.token);
        let numbers = hand_on(&mut seat.numbers);
        Ok(Seat { token, numbers })
    }

    /// Takes in another seat, which is spent: its numbers, its misses and its difference are this seat's from now on.
    pub fn join(&self, seat: &mut Seat, other: Seat)
        requires table { IsOf seat.old self.now }
        requires other_table { IsOf other self.now }
        requires held { (view_of other).held ≡ [] }
        requires pins { (view_of other).pins ≡ [] }
        ensures table { IsOf seat.new self.now }
        ensures more { length (known_of seat.new).numbers ≡ length (known_of seat.old).numbers + length (known_of other).numbers }
        ensures joined { known_of seat.new ≡ with_joined (known_of seat.old) (known_of other) }
    {
        let Seat { token, numbers } = other;
        self.table
            .shared
            .join_seat::<TakesIn>(&mut seat.token, token);
        self.see_numbers(&mut seat.token);
        append(&mut seat.numbers, &numbers);
    }
}
