//! Operators and literals, and the tokens with which parts begin.

ghost use Rattle.std.specs.Prelude.{◌≡◌, ◌<◌, [], ◌∷◌, length, codes};
ghost use Rattle.sw_grammar_forms.specs.Outcome.{Gives};
ghost use Rattle.sw_grammar_forms.specs.Reader.{next};
ghost use Rattle.sw_grammar_forms.specs.Relations.{head};
ghost use Rattle.sw_grammar_forms.specs.Sets.{starts, one_of, not_first};
ghost use Rattle.sw_grammar.specs.Tokens.{times, plus, compares, assign_ops, prefix_ops, infix_op};
ghost use Rattle.sw_grammar.specs.Tokens.{literal_first, expr_first, value_first, stmt_first};
ghost use Rattle.sw_grammar.specs.Tokens.{an_equals};
ghost use Rattle.sw_grammar.specs.Tokens.{infix_of, assign_of, infix_in, a_prefix};
ghost use Rattle.sw_grammar.specs.Tokens.{an_assignment};
ghost use Rattle.sw_grammar.specs.Exprs as exprs;
ghost use Rattle.sw_grammar.specs.Reading.{read};
ghost use Rattle.sw_parse_parts.specs.Around.{known};
ghost use Rattle.sw_parse_parts.specs.Taking.{TakesAs, infix_value, prefix_value, assign_value};
ghost use Rattle.sw_parse_parts.specs.Begin.{booleans, operand_begin, expr_words, stmt_words};

use super::around::Around;
use super::words::sees_value_word;
use sw_grammar_forms::{Cursor, Stop};
use sw_token::Fixity;
use sw_tree::{AssignOp, Expr, InfixOp, PrefixOp};

/// The operator with this text, between operands; any text that isn't an operator's gives `||`.
fn infix_of(text: &str) -> InfixOp
    ensures { result ≡ infix_of text.now }
{
    match text {
        "*" => InfixOp::Multiply,
        "/" => InfixOp::Divide,
        "%" => InfixOp::Remainder,
        "+" => InfixOp::Add,
        "-" => InfixOp::Subtract,
        "==" => InfixOp::Equal,
        "!=" => InfixOp::NotEqual,
        "<" => InfixOp::Less,
        "<=" => InfixOp::LessEqual,
        ">" => InfixOp::Greater,
        ">=" => InfixOp::GreaterEqual,
        "&&" => InfixOp::And,
        _ => InfixOp::Or,
    }
}

/// The operator of an assignment with this text; any text that isn't such an operator's gives `%=`.
fn assign_of(text: &str) -> AssignOp
    ensures { result ≡ assign_of text.now }
{
    match text {
        "=" => AssignOp::Set,
        "+=" => AssignOp::Add,
        "-=" => AssignOp::Subtract,
        "*=" => AssignOp::Multiply,
        "/=" => AssignOp::Divide,
        _ => AssignOp::Remainder,
    }
}

/// Takes the next token as an operator between operands.
fn take_infix(tokens: &mut Cursor<'_>) -> (InfixOp, u32)
    requires { 0 < length tokens.old }
    ensures { TakesAs infix_value tokens.old result tokens.new }
{
    let op = infix_of(tokens.text());
    (op, tokens.take())
}

/// Whether the next token is one of the operators `*`, `/` and `%` between operands.
pub fn sees_times(tokens: &Cursor<'_>) -> bool
    ensures { result ≡ starts times (head tokens.now) }
{
    let texts: [&str; 3] = ["*", "/", "%"];
    tokens.sees_operator_of(texts.as_slice(), Fixity::Infix)
}

/// Whether the next token is one of the operators `+` and `-` between operands.
pub fn sees_plus(tokens: &Cursor<'_>) -> bool
    ensures { result ≡ starts plus (head tokens.now) }
{
    let texts: [&str; 2] = ["+", "-"];
    tokens.sees_operator_of(texts.as_slice(), Fixity::Infix)
}

/// Whether the next token is an operator that compares.
pub fn sees_compare(tokens: &Cursor<'_>) -> bool
    ensures { result ≡ starts compares (head tokens.now) }
{
    let texts: [&str; 6] = ["==", "!=", "<", "<=", ">", ">="];
    tokens.sees_operator_of(texts.as_slice(), Fixity::Infix)
}

/// Whether the next token is an operator that assigns.
pub fn sees_assign(tokens: &Cursor<'_>) -> bool
    ensures { result ≡ starts assign_ops (head tokens.now) }
{
    let texts: [&str; 6] = ["=", "+=", "-=", "*=", "/=", "%="];
    tokens.sees_operator_of(texts.as_slice(), Fixity::Infix)
}

/// Whether the next token is an operator before its operand: `!` or `-`.
pub fn sees_prefix(tokens: &Cursor<'_>) -> bool
    ensures { result ≡ starts prefix_ops (head tokens.now) }
{
    let texts: [&str; 2] = ["!", "-"];
    tokens.sees_operator_of(texts.as_slice(), Fixity::Prefix)
}

/// Takes an operator `*`, `/` or `%`; gives it and where it stands.
pub fn infix_times(tokens: &mut Cursor<'_>) -> Result<(InfixOp, u32), Stop>
    ensures { Gives (next (infix_in times (codes "*")) tokens.old) result tokens.new }
{
    if !sees_times(tokens) {
        return Err(tokens.stop());
    }
    Ok(take_infix(tokens))
}

/// Takes an operator `+` or `-`; gives it and where it stands.
pub fn infix_plus(tokens: &mut Cursor<'_>) -> Result<(InfixOp, u32), Stop>
    ensures { Gives (next (infix_in plus (codes "+")) tokens.old) result tokens.new }
{
    if !sees_plus(tokens) {
        return Err(tokens.stop());
    }
    Ok(take_infix(tokens))
}

/// Takes an operator that compares; gives it and where it stands.
pub fn infix_compare(tokens: &mut Cursor<'_>) -> Result<(InfixOp, u32), Stop>
    ensures { Gives (next (infix_in compares (codes "==")) tokens.old) result tokens.new }
{
    if !sees_compare(tokens) {
        return Err(tokens.stop());
    }
    Ok(take_infix(tokens))
}

/// Takes an operator `&&`; gives it and where it stands.
pub fn infix_and(tokens: &mut Cursor<'_>) -> Result<(InfixOp, u32), Stop>
    ensures { Gives (next (infix_in (infix_op (codes "&&")) (codes "&&")) tokens.old) result
        tokens.new }
{
    if !tokens.sees_operator("&&", Fixity::Infix) {
        return Err(tokens.stop());
    }
    Ok(take_infix(tokens))
}

/// Takes an operator `||`; gives it and where it stands.
pub fn infix_or(tokens: &mut Cursor<'_>) -> Result<(InfixOp, u32), Stop>
    ensures { Gives (next (infix_in (infix_op (codes "||")) (codes "||")) tokens.old) result
        tokens.new }
{
    if !tokens.sees_operator("||", Fixity::Infix) {
        return Err(tokens.stop());
    }
    Ok(take_infix(tokens))
}

/// Takes an operator before its operand, `!` or `-`; gives it and where it stands.
pub fn prefix_op(tokens: &mut Cursor<'_>) -> Result<(PrefixOp, u32), Stop>
    ensures { Gives (next a_prefix tokens.old) result tokens.new }
{
    if !sees_prefix(tokens) {
        return Err(tokens.stop());
    }
    Ok(take_prefix(tokens))
}

fn take_prefix(tokens: &mut Cursor<'_>) -> (PrefixOp, u32)
    requires { 0 < length tokens.old }
    ensures { TakesAs prefix_value tokens.old result tokens.new }
{
    let op = match tokens.text() {
        "!" => PrefixOp::Not,
        _ => PrefixOp::Negate,
    };
    (op, tokens.take())
}

/// Takes an operator that assigns; gives it and where it stands.
pub fn assign_op(tokens: &mut Cursor<'_>) -> Result<(AssignOp, u32), Stop>
    ensures { Gives (next an_assignment tokens.old) result tokens.new }
{
    if !sees_assign(tokens) {
        return Err(tokens.stop());
    }
    Ok(take_assign(tokens))
}

fn take_assign(tokens: &mut Cursor<'_>) -> (AssignOp, u32)
    requires { 0 < length tokens.old }
    ensures { TakesAs assign_value tokens.old result tokens.new }
{
    let op = assign_of(tokens.text());
    (op, tokens.take())
}

/// Takes a `=` between operands, and gives where it stands.
pub fn equals(tokens: &mut Cursor<'_>) -> Result<u32, Stop>
    ensures { Gives (next an_equals tokens.old) result tokens.new }
{
    if !tokens.sees_operator("=", Fixity::Infix) {
        return Err(tokens.stop());
    }
    Ok(tokens.take())
}

/// Whether the next token is a literal: an integer, `true` or `false`.
pub fn sees_literal(tokens: &Cursor<'_>) -> bool
    ensures { result ≡ starts literal_first (head tokens.now) }
{
    if tokens.sees_integer() {
        return true;
    }
    sees_boolean(tokens)
}

fn sees_boolean(tokens: &Cursor<'_>) -> bool
    ensures { result ≡ starts booleans (head tokens.now) }
{
    let texts: [&str; 2] = ["true", "false"];
    tokens.sees_one_of(texts.as_slice())
}

/// A literal: an integer, `true` or `false`.
#[tactic(auto, unfolding(sw_grammar::specs::Exprs::a_literal, sw_grammar_forms::specs::Terminals::literal))]
pub fn a_literal(around: &Around<'_>, tokens: &mut Cursor<'_>, depth: u32) -> Result<Expr, Stop>
    ensures { Gives (read (known around.now) depth (exprs.a_literal (known around.now)) tokens.old)
        result tokens.new }
{
    if tokens.sees_integer() {
        let (at, value) = tokens.integer()?;
        return Ok(Expr::Int { at, value });
    }
    if tokens.sees("true") {
        return Ok(Expr::Bool {
            at: tokens.expect("true")?,
            value: true,
        });
    }
    Ok(Expr::Bool {
        at: tokens.expect("false")?,
        value: false,
    })
}

/// Whether the next token is `let` or `var`.
pub fn sees_binding(tokens: &Cursor<'_>) -> bool
    ensures { result ≡ starts (one_of (codes "let" ∷ codes "var" ∷ [])) (head tokens.now) }
{
    let texts: [&str; 2] = ["let", "var"];
    tokens.sees_one_of(texts.as_slice())
}

/// Whether the next token is a word that names a value, an integer literal or an operator before
/// its operand.
fn begins_operand(tokens: &Cursor<'_>) -> bool
    ensures { result ≡ starts operand_begin (head tokens.now) }
{
    if sees_value_word(tokens) {
        return true;
    }
    if tokens.sees_integer() {
        return true;
    }
    sees_prefix(tokens)
}

/// Whether a statement begins with the next token.
pub fn sees_stmt(tokens: &Cursor<'_>) -> bool
    ensures { result ≡ starts stmt_first (head tokens.now) }
{
    if begins_operand(tokens) {
        return true;
    }
    sees_stmt_word(tokens)
}

fn sees_stmt_word(tokens: &Cursor<'_>) -> bool
    ensures { result ≡ starts stmt_words (head tokens.now) }
{
    let texts: [&str; 14] = [
        "await", "true", "false", "self", "Task", "let", "var", "_", "if", "while", "switch",
        "return", "break", "continue",
    ];
    tokens.sees_one_of(texts.as_slice())
}

/// Whether a value begins with the next token, which isn't the first on its line, in a place where
/// it may be an optional.
pub fn sees_value_on_line(tokens: &Cursor<'_>) -> bool
    ensures { result ≡ starts (not_first value_first) (head tokens.now) }
{
    if tokens.begins_line() {
        return false;
    }
    sees_value(tokens)
}

fn sees_value(tokens: &Cursor<'_>) -> bool
    ensures { result ≡ starts value_first (head tokens.now) }
{
    if tokens.sees("nil") {
        return true;
    }
    sees_expr(tokens)
}

/// Whether an expression begins with the next token.
pub fn sees_expr(tokens: &Cursor<'_>) -> bool
    ensures { result ≡ starts expr_first (head tokens.now) }
{
    if begins_operand(tokens) {
        return true;
    }
    sees_expr_word(tokens)
}

fn sees_expr_word(tokens: &Cursor<'_>) -> bool
    ensures { result ≡ starts expr_words (head tokens.now) }
{
    let texts: [&str; 7] = ["await", "true", "false", "self", "Task", "(", "{"];
    tokens.sees_one_of(texts.as_slice())
}
