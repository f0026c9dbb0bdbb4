ghost use Rattle.std.specs.Prelude.{◌≡◌};
ghost use Rattle.sw_tree.specs.Contents.{AreKeyed, AreNamed};

use crate::decl::{Decl, DeclList};
use crate::names::Names;
use std::marker::Model;

/// A program: its declarations, and the texts of its names.
#[derive(Drop)]
pub struct Program {
    decls: DeclList,
    names: Names,
}

impl Model for Program {
    ghost use Rattle.std.specs.Prelude.{ℕ};
    ghost use Rattle.std.specs.Coded.{coded_list, coded_ℕ};
    ghost use Rattle.sw_tree.specs.contracts.decl.Decl as decl;
    ghost use Rattle.sw_tree.specs.Contents.{Contents, contents_code, AreKeyed, AreNamed};

    ghost Value = { Contents };

    ghost coded = { contents_code decl.the_row.coded };

    ghost view = { λ p. record { decls = p.decls; texts = p.names } };

    ghost invariant = { λ p. AreKeyed p.decls × AreNamed p.names p.decls };
}

impl Program {
    /// A program of declarations whose nodes have keys of their own and whose names have texts.
    pub fn new(decls: DeclList, names: Names) -> Program
        requires keyed { AreKeyed decls }
        requires named { AreNamed names decls }
        ensures decls { result.decls ≡ decls }
        ensures texts { result.texts ≡ names }
    {
        Program { decls, names }
    }

    /// The declarations, in order.
    pub fn decls(&self) -> &[Decl]
        ensures value { result.now ≡ self.now.decls }
        ensures keyed { AreKeyed result.now }
        ensures named { AreNamed self.now.texts result.now }
    {
        self.decls.as_slice()
    }

    /// The texts of its names.
    pub fn names(&self) -> &Names
        ensures { result.now ≡ self.now.texts }
    {
        &self.names
    }
}
