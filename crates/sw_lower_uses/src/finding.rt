//! Look-ups in the tables. What isn't known there ends the code.
ghost use Rattle.std.specs.Prelude.{◌≡◌, ◌≢◌, None, Some, slice_get, IfOk, OnErr};
ghost use Rattle.std.specs.Result.{IfErr};
ghost use Rattle.sw_isolation_rules.specs.Uses.{named_shape};
ghost use Rattle.sw_lower_known.specs.Knowledge.{tables_by};
ghost use Rattle.sw_lower_plans.specs.declared.fault.CodeFault.TheVariants.{Memory, Missing};

use std::alloc::Global;
use sw_lower_known::Known;
use sw_lower_plans::CodeFault;
use sw_types::{Part, Shape, Ty};
use sw_typing_words::copy_of;

/// The type of the expression or variable with this key.
pub fn type_of(alloc: Global, known: &Known<'_>, key: u32) -> Result<Ty, CodeFault>
    ensures found { IfOk result (λ ty. (tables_by known.now).answers.type_at key ≡ Some ty) }
    ensures missing { IfErr result (λ fault. fault ≢ Memory → fault ≡ Missing) }
    ensures none { IfErr result (λ fault. fault ≢ Memory
        → (tables_by known.now).answers.type_at key ≡ None) }
{
    let ty = known.type_at(key).ok_or(CodeFault::Missing)?;
    Ok(copy_of(alloc, ty)?)
}

/// The declared type with this number.
pub fn shape_at<'a>(known: &'a Known<'_>, number: u32) -> Result<&'a Shape, CodeFault>
    ensures found { IfOk result (λ shape.
        slice_get (tables_by known.now).world.shapes number ≡ Some shape.now) }
    ensures missing { IfErr result (λ fault. fault ≡ Missing) }
    ensures none { OnErr result (slice_get (tables_by known.now).world.shapes number ≡ None) }
{
    known.shape(number).ok_or(CodeFault::Missing)
}

/// The number of the declared type of the expression with this key.
pub fn shape_of(known: &Known<'_>, key: u32) -> Result<u32, CodeFault>
    ensures found { IfOk result (λ number.
        named_shape ((tables_by known.now).answers.type_at key) ≡ Some number) }
    ensures missing { IfErr result (λ fault. fault ≡ Missing) }
    ensures none { OnErr result
        (named_shape ((tables_by known.now).answers.type_at key) ≡ None) }
{
    known.shape_of(key).ok_or(CodeFault::Missing)
}

/// The property of a type with this number.
pub fn part_at(number: usize, shape: &Shape) -> Result<&Part, CodeFault>
    ensures found { IfOk result (λ part. slice_get shape.now.parts number ≡ Some part.now) }
    ensures missing { IfErr result (λ fault. fault ≡ Missing) }
    ensures none { OnErr result (slice_get shape.now.parts number ≡ None) }
{
    shape.parts.get(number).ok_or(CodeFault::Missing)
}
