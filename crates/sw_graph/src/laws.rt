ghost use Rattle.std.specs.Prelude.{◌≡◌, ℕ, Bool, List, IsTrue, None, slice_get};
ghost use Rattle.sw_types.specs.declared.shape.Shape.{Shape};
ghost use Rattle.sw_types.specs.declared.shape.ShapeKind.TheVariants.{Actor, Class};
ghost use Rattle.sw_graph.specs.declared.function.Function.{Function};
ghost use Rattle.sw_graph.specs.declared.function.GlobalKind.{GlobalKind};
ghost use Rattle.sw_graph.specs.declared.graph.Graph.{Graph};
ghost use Rattle.sw_graph.specs.declared.instr.Block.{Block};
ghost use Rattle.sw_graph.specs.declared.instr.Operand.{Operand};
ghost use Rattle.sw_graph.specs.Bodies.{is_self};
ghost use Rattle.sw_graph.specs.Clean.{IsClean, conforms};
ghost use Rattle.sw_graph.specs.Payloads.{PayloadsFit};
ghost use Rattle.sw_graph.specs.Placed.{IsPlaced, is_inside_shape};
ghost use Rattle.sw_graph.specs.Straight.{is_straight, IsStraightGraph};
ghost use Rattle.sw_graph.specs.Ways.{IsAnnotated, SetsBeforeReads};
ghost use Rattle.sw_graph.specs.WellFormed.{IsWellFormed};

use crate::function::{MAX_POINTS, MAX_REGISTERS};

/// How it is shown that a function sets its registers before it reads them: by an annotation, or
/// for a function of one block that returns and takes no payload by a test that computes. What
/// passes the test also keeps the rules on payloads.
pub fn registers_are_set()
    ensures annotated { (function : Function) (annotation : ℕ → ℕ → Bool)
        → IsAnnotated function annotation → SetsBeforeReads function }
    ensures straight { (function : Function) → IsTrue (is_straight function)
        → SetsBeforeReads function }
    ensures straight_payloads { (shapes : List Shape) (function : Function)
        → IsTrue (is_straight function)
        → (number : ℕ) (block : Block) → slice_get function.blocks number ≡ Some block
        → PayloadsFit shapes function number block }
{}

/// A graph of straight functions, as a benchmark makes one, is well formed.
pub fn straight_graphs_fit()
    ensures { (shapes : List Shape) (globals : List GlobalKind) (functions : List Function)
        (entry : ℕ) (starts : List ℕ) → IsStraightGraph shapes globals functions entry starts
        → IsWellFormed shapes globals functions entry starts }
{}

/// In a placed graph only classes have a global actor. So the parts of an actor are inside a body
/// only on the body's own `self`; and in a clean graph what declares that it is Sendable may say
/// so, unless it is a class with a global actor (SE-0302, SE-0306, SE-0316).
pub fn only_classes_have_global_actors()
    ensures selves { (graph : Graph) (k : ℕ) (shape : Shape) (body : Function) (cell : Operand)
        → IsPlaced graph → slice_get graph.shapes k ≡ Some shape → shape.kind ≡ Actor
        → is_inside_shape body cell shape ≡ is_self body cell }
    ensures conformances { (graph : Graph) (k : ℕ) (shape : Shape) → IsClean graph
        → slice_get graph.shapes k ≡ Some shape → IsTrue shape.conforms
        → (shape.kind ≡ Class → shape.actor ≡ None) → IsTrue (conforms graph shape) }
{}

/// The limits of a function of a graph.
pub fn function_limits()
    ensures registers { MAX_REGISTERS ≡ 512 }
    ensures points { MAX_POINTS ≡ 16384 }
{}
