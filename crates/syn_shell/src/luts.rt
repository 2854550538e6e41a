//! Recipes with what the session adds to them.

ghost use Rattle.std.specs.Prelude.{◌≡◌};
ghost use Rattle.syn_shell.specs.Steps.{with_luts};

use syn_words::{LutSizes, Recipe};

/// The recipe, with these LUTs where it names none.
pub(crate) fn with_luts(recipe: &Recipe, sizes: &LutSizes) -> Recipe
    ensures { result ≡ with_luts sizes.now recipe.now }
{
    match recipe {
        Recipe::Strash => Recipe::Strash,
        Recipe::Balance => Recipe::Balance,
        Recipe::BalanceShared => Recipe::BalanceShared,
        Recipe::Rewrite(options) => Recipe::Rewrite(*options),
        Recipe::Refactor(options) => Recipe::Refactor(*options),
        Recipe::Resubstitute(options) => Recipe::Resubstitute(*options),
        Recipe::Merge(limits) => Recipe::Merge(*limits),
        Recipe::Replace(limits) => Recipe::Replace(*limits),
        Recipe::Map { area, luts } => Recipe::Map {
            area: *area,
            luts: Some(luts.unwrap_or(*sizes)),
        },
        Recipe::MapLoosely { slack, luts } => Recipe::MapLoosely {
            slack: *slack,
            luts: Some(luts.unwrap_or(*sizes)),
        },
        Recipe::ResubstituteLuts { window, luts } => Recipe::ResubstituteLuts {
            window: *window,
            luts: Some(luts.unwrap_or(*sizes)),
        },
        Recipe::MapByFlow(inputs) => Recipe::MapByFlow(Some(inputs.unwrap_or(sizes.most))),
        Recipe::Sweep => Recipe::Sweep,
    }
}
