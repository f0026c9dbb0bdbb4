//! The numbers of functions by what the functions stand for.
ghost use Rattle.std.specs.Prelude.{◌≡◌};
ghost use Rattle.sw_lower_draft.specs.Drafts.{number_by};

use indexmap::IndexMap;
use sw_lower_plans::FunctionName;

/// The numbers of functions.
#[derive(Drop)]
pub struct NumberTable {
    /// Those of getters, by the keys of their variables.
    pub getters: IndexMap<u32, u32>,
    /// Those of all other functions, by their keys.
    pub others: IndexMap<u32, u32>,
}

impl NumberTable {
    /// The number of the function with this name.
    pub fn get(&self, name: FunctionName) -> Option<u32>
        ensures { result ≡ number_by self.now name }
    {
        let table = if name.getter {
            &self.getters
        } else {
            &self.others
        };
        table.get(&name.key).copied()
    }
}
