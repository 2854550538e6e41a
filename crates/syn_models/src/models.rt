//! The models of a file.

ghost use Rattle.std.specs.Prelude.{◌≡◌, ◌^◌, ◌≤◌, ◌<◌, length, map, true};
ghost use Rattle.syn_models.specs.Models.{name_of};
ghost use Rattle.syn_models.specs.Views.{all_counted, model_in};
ghost use Rattle.syn_netlist.specs.Words.{distinct};

use crate::hierarchy::Model;
use syn_lists::Items;

/// The models of a file, of different names. The first is the main model.
#[derive(Debug, Drop)]
pub struct Models {
    /// The models in order: one or more, and fewer than 2 to the power of 32. Each but the first has a word or more.
    pub models: Items<Model>,
    pub ghost some: { 1 ≤ length models },
    pub ghost few: { length models < 2 ^ 32 },
    pub ghost names_once: { distinct (map name_of (map model_in models)) ≡ true },
    pub ghost words: { all_counted models ≡ true },
}
