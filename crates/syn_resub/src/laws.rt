//! What holds of divisors.

ghost use Rattle.syn_resub.specs.Laws.{DivisorsAreDivisors};

/// In rows in order, divisors are leaves and ANDs of two of them, and all of these where they are fewer than 64.
pub fn divisors_are_divisors()
    ensures { DivisorsAreDivisors }
{}
