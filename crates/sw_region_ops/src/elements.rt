ghost use Rattle.std.specs.Prelude.{◌≡◌, ◌≤◌, length, IsTrue, All, IfOk};
ghost use Rattle.sw_graph.specs.WellFormed.{type_in};
ghost use Rattle.sw_graph.specs.declared.function.TheConstants.{MAX_REGISTERS};
ghost use Rattle.sw_region_ops.specs.Elements.{is_tracked, elements_of, element_count, element_at};
ghost use Rattle.sw_region_ops.specs.Elements.{AreElements};
ghost use Rattle.sw_types.specs.Named.{is_within};

use std::alloc::{AllocError, Global};
use sw_graph::RegKind;
use sw_list::ListOf;
use sw_types::Shapes;

/// The elements of registers, by number; none for a register that isn't tracked.
pub(crate) type ElementList = ListOf<Option<u32>>;

fn is_tracked(shapes: &Shapes, kind: &RegKind) -> bool
    requires { IsTrue (is_within (length shapes.now) (type_in kind.now)) }
    ensures { result ≡ is_tracked shapes.now kind.now }
{
    match kind {
        RegKind::Plain(ty) => !shapes.is_sendable(ty),
        RegKind::BoxOf(_) => true,
    }
}

/// The elements of a function's registers.
pub(crate) fn elements_of(
    alloc: Global,
    shapes: &Shapes,
    regs: &[RegKind],
) -> Result<ElementList, AllocError>
    requires types { All (λ kind. IsTrue (is_within (length shapes.now) (type_in kind))) regs.now }
    requires few { length regs.now ≤ MAX_REGISTERS }
    ensures each { IfOk result (λ elements. elements ≡ elements_of shapes.now regs.now) }
    ensures in_range { IfOk result AreElements }
{
    let mut elements = ListOf::new(alloc);
    let mut next = 1;
    for kind in regs {
        if is_tracked(shapes, kind) {
            elements.push(Some(next))?;
            next += 1;
        } else {
            elements.push(None)?;
        }
    }
    Ok(elements)
}

/// How many elements there are, `Here` among them.
pub(crate) fn element_count(elements: &[Option<u32>]) -> u32
    requires few { length elements.now ≤ MAX_REGISTERS }
    ensures { result ≡ element_count elements.now }
{
    let mut count = 1;
    for element in elements {
        if element.is_some() {
            count += 1;
        }
    }
    count
}

/// The element of a register.
pub(crate) fn element_at(elements: &[Option<u32>], reg: usize) -> Option<u32>
    ensures { result ≡ element_at elements.now reg }
{
    *elements.get(reg)?
}
