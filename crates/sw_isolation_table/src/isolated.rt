//! What is known of the isolation of a program.
use indexmap::IndexMap;
use sw_decl_words::Placed;
use sw_isolation_rules::{BodyIso, Capture, Kinded};
use sw_list::ListOf;
use sw_types::CallKind;

/// How the bodies of a program are isolated, how its calls cross, what its closures capture, and
/// which of its values cross that may not.
#[derive(Drop)]
pub struct Isolated {
    /// The bodies, declaration after declaration; within a class or an actor those of its properties,
    /// then of its initialisers, then of its functions.
    pub bodies: ListOf<BodyIso>,
    /// The kinds of calls and of reads that cross, in the same order.
    pub kinds: ListOf<Kinded>,
    /// The same kinds by their keys.
    pub kinds_by_key: IndexMap<u32, CallKind>,
    /// The captures of all closures and tasks. Those of one stand together, in their order.
    pub captures: ListOf<Capture>,
    /// The variables that are kept in boxes by the keys of their declarations, each once, in order.
    pub boxes: ListOf<u32>,
    /// The values that cross and may not (E604 to E606), in the same order.
    pub crossings: ListOf<Placed>,
}

impl Isolated {
    ghost use Rattle.std.specs.Prelude.{◌≡◌, List, nat_eq};
    ghost use Rattle.indexmap.specs.IndexMap.{get};
    ghost use Rattle.sw_isolation_table.specs.Isolated.{IsIsolated};
    ghost use Rattle.sw_isolation_rules.specs.Answers.{Answers};
    ghost use Rattle.sw_isolation_rules.specs.Programs.{IsKindAt};
    ghost use Rattle.sw_tree.specs.declared.decl.Decl.{Decl};
    ghost use Rattle.sw_typing_rules.specs.Worlds.{World};

    /// How the call or the crossing read with this key crosses.
    pub fn kind_at(&self, at: u32) -> Option<CallKind>
        ensures stored { result ≡ get nat_eq self.now.kinds_by_key at }
        ensures noted { (world : World) (answers : Answers) (decls : List Decl)
            → IsIsolated world answers decls self.now → IsKindAt world answers decls at result }
    {
        self.kinds_by_key.get(&at).copied()
    }
}
