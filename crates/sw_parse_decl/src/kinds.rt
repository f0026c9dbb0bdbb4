//! The kinds of types, and what their members begin with.

ghost use Rattle.std.specs.Prelude.{◌≡◌};
ghost use Rattle.sw_grammar_forms.specs.Relations.{head};
ghost use Rattle.sw_grammar_forms.specs.Sets.{starts};
ghost use Rattle.sw_grammar.specs.Nests.{method_first};
ghost use Rattle.sw_parse_decl.specs.declared.kinds.TypeKind.TheVariants as kinds;
ghost use Rattle.sw_parse_decl.specs.Kinds.{member_first};

use sw_grammar_forms::Cursor;
use sw_parse_parts::{sees_attribute, sees_binding};

/// The kinds of types, by the members that they may have.
#[derive(Clone, Copy, Debug, PartialEq, Eq)]
pub enum TypeKind {
    Struct,
    Enum,
    /// A class or an actor.
    Class,
}

/// Whether a method begins with the next token.
fn sees_method(tokens: &Cursor<'_>) -> bool
    ensures { result ≡ starts method_first (head tokens.now) }
{
    sees_attribute(tokens) || tokens.sees_one_of(&["nonisolated", "@concurrent", "func"])
}

/// Whether a member of a struct begins with the next token.
fn sees_struct_member(tokens: &Cursor<'_>) -> bool
    ensures { result ≡ starts (member_first kinds.Struct) (head tokens.now) }
{
    sees_binding(tokens) || sees_method(tokens)
}

/// Whether a member of an enum begins with the next token.
fn sees_enum_member(tokens: &Cursor<'_>) -> bool
    ensures { result ≡ starts (member_first kinds.Enum) (head tokens.now) }
{
    tokens.sees("case") || sees_method(tokens)
}

/// Whether a member of a class or an actor begins with the next token.
fn sees_class_member(tokens: &Cursor<'_>) -> bool
    ensures { result ≡ starts (member_first kinds.Class) (head tokens.now) }
{
    tokens.sees_one_of(&["let", "var", "init"]) || sees_method(tokens)
}

/// Whether a member of a type of this kind begins with the next token.
pub fn sees_member(kind: TypeKind, tokens: &Cursor<'_>) -> bool
    ensures { result ≡ starts (member_first kind) (head tokens.now) }
{
    match kind {
        TypeKind::Struct => sees_struct_member(tokens),
        TypeKind::Enum => sees_enum_member(tokens),
        TypeKind::Class => sees_class_member(tokens),
    }
}
