//! Laws, without code: the bodies of a program are few, and the functions that they make have few
//! blocks.
ghost use Rattle.std.specs.Prelude.{◌*◌, ◌≤◌, All, List, length};
ghost use Rattle.sw_tree.specs.declared.decl.Decl.{Decl};
ghost use Rattle.sw_tree_facts.specs.Sizes.{size_of};
ghost use Rattle.sw_lower_plans.specs.Plan.{Numbers};
ghost use Rattle.sw_lower_code.specs.Whole.{Body, piece_of};
ghost use Rattle.sw_lower_rules.specs.Bodies.{program_bodies};
ghost use Rattle.sw_lower_rules.specs.Tables.{Tables};

/// A program has no more bodies than twice its size, and the code of each makes no more blocks than
/// three times that size, besides the first block of the function.
pub fn bodies_are_short()
    ensures few { (tables : Tables) (decls : List Decl)
        → length (program_bodies tables decls) ≤ 2 * size_of decls }
    ensures short { (tables : Tables) (decls : List Decl) (number : Numbers)
        → All (λ (body : Body). length (piece_of number body).made ≤ 3 * size_of decls)
        (program_bodies tables decls) }
{}
