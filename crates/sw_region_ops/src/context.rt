use crate::elements::{ElementList, element_at, element_count, elements_of};
use std::alloc::{AllocError, Global};
use std::marker::Model;
use sw_graph::{Function, Functions, Graph};

/// What the operations of a function's instructions depend on beside the instruction. It is made
/// once for a function. Contracts see the functions of the graph, the function, and the elements of
/// its registers.
#[derive(Drop)]
pub struct Context<'a> {
    functions: &'a Functions,
    body: &'a Function,
    elements: ElementList,
}

impl<'a> Model for Context<'a> {
    ghost use Rattle.sw_graph.specs.contracts.function.Function as function;
    ghost use Rattle.sw_region_ops.specs.Elements.{AreElements};
    ghost use Rattle.sw_region_ops.specs.Setting.{FunctionSetting, setting_code};

    ghost Value = { FunctionSetting };

    ghost coded = { setting_code function.the_row.coded };

    ghost view = { λ c. record {
      functions = c.functions.now;
      body = c.body.now;
      elements = c.elements;
    } };

    ghost invariant = { λ c. AreElements c.elements };
}

impl<'a> Context<'a> {
    ghost use Rattle.std.specs.Prelude.{◌≡◌, ◌<◌, Some, length, slice_get, IfOk};
    ghost use Rattle.std.specs.Option.{option_copied};
    ghost use Rattle.sw_graph.specs.declared.function.Function.{Function};
    ghost use Rattle.sw_region_ops.specs.Elements.{element_count, element_at, AreElements};
    ghost use Rattle.sw_region_ops.specs.Setting.{setting_of};

    /// The context of a function of a graph.
    #[tactic(auto, using(crate::proofs::ContextLemmas::context_facts))]
    pub fn new(alloc: Global, graph: &'a Graph, function: usize) -> Result<Context<'a>, AllocError>
        requires { function < length graph.now.functions }
        ensures value { IfOk result (λ context. (body : Function)
            → slice_get graph.now.functions function ≡ Some body
            → context ≡ setting_of graph.now body) }
        ensures in_range { IfOk result (λ context. AreElements context.elements) }
    {
        let body = graph.functions.get(function).unwrap();
        let elements = elements_of(alloc, &graph.shapes, body.regs.as_slice())?;
        Ok(Context {
            functions: &graph.functions,
            body,
            elements,
        })
    }

    /// The function.
    pub fn body(&self) -> &Function
        ensures { result.now ≡ self.now.body }
    {
        self.body
    }

    /// How many elements there are, `Here` among them.
    pub(crate) fn element_count(&self) -> u32
        ensures { result ≡ element_count self.now.elements }
    {
        element_count(self.elements.as_slice())
    }

    /// The element of a register, if it is tracked.
    pub(crate) fn element(&self, reg: u32) -> Option<u32>
        ensures { result ≡ element_at self.now.elements reg }
    {
        element_at(self.elements.as_slice(), reg as usize)
    }

    /// The elements of all registers.
    pub(crate) fn elements(&self) -> &[Option<u32>]
        ensures value { result.now ≡ self.now.elements }
        ensures in_range { AreElements result.now }
    {
        self.elements.as_slice()
    }

    /// A function of the graph.
    pub(crate) fn function(&self, number: u32) -> Option<&Function>
        ensures { option_copied result ≡ slice_get self.now.functions number }
    {
        self.functions.get(number as usize)
    }
}
