//! The tokens of globals and of the heads of functions.

ghost use Rattle.std.specs.Prelude.{◌≡◌, ◌++◌, OnOk};
ghost use Rattle.ax_module.specs.Names.{IsAscii};
ghost use Rattle.ax_ir.specs.OperandTokens.{parted, typed_tokens};
ghost use Rattle.ax_ir.specs.Canonical.{zero_token, init_tokens, global_tokens, numbered_param_tokens, params_tokens, function_result_tokens, define_tokens};

use crate::tokens::Tokens;
use ax_module::{Function, Global, Operand, Ty};
use std::alloc::AllocError;

impl Tokens {
    #[tactic(auto, unfolding(crate::specs::Canonical::global_tokens))]
    pub(crate) fn global_definition(&mut self, global: &Global) -> Result<(), AllocError>
        requires { IsAscii global.now.name }
        ensures { OnOk result (self.new ≡ self.old ++ global_tokens global.now) }
    {
        self.global(&global.name)?;
        self.word("=")?;
        self.word("global")?;
        self.elements(global.count, global.elem)?;
        self.init(global.elem, global.count, global.init.as_slice())?;
        self.align(global.align)
    }

    #[tactic(auto, unfolding(crate::specs::Canonical::init_tokens))]
    fn init(&mut self, elem: Ty, count: u64, init: &[Operand]) -> Result<(), AllocError>
        ensures { OnOk result (self.new ≡ self.old ++ init_tokens elem count init.now) }
    {
        let Some(first) = init.first() else {
            return self.word(zero_word(count));
        };
        if count == 1 {
            return self.operand(*first);
        }
        self.word("[")?;
        self.constants(elem, init)?;
        self.word("]")
    }

    fn constants(&mut self, elem: Ty, constants: &[Operand]) -> Result<(), AllocError>
        ensures { OnOk result (self.new ≡ self.old ++ parted (typed_tokens elem) constants.now) }
    {
        let Some((first, rest)) = constants.split_first() else {
            return Ok(());
        };
        self.typed(elem, *first)?;
        for v in rest {
            self.word(",")?;
            self.typed(elem, *v)?;
        }
        Ok(())
    }

    /// The head of a function.
    #[tactic(auto, unfolding(crate::specs::Canonical::define_tokens))]
    pub(crate) fn define(&mut self, function: &Function) -> Result<(), AllocError>
        requires { IsAscii function.now.name }
        ensures { OnOk result (self.new ≡ self.old ++ define_tokens function.now) }
    {
        self.word("define")?;
        self.function_result(function.is_void, function.result)?;
        self.global(&function.name)?;
        self.word("(")?;
        self.params(function.params.as_slice())?;
        self.words(&[")", "{"])
    }

    #[tactic(auto, unfolding(crate::specs::Canonical::function_result_tokens))]
    fn function_result(&mut self, is_void: bool, t: Ty) -> Result<(), AllocError>
        ensures { OnOk result (self.new ≡ self.old ++ function_result_tokens is_void t) }
    {
        if is_void {
            self.word("void")
        } else {
            self.ty(t)
        }
    }

    fn params(&mut self, params: &[Ty]) -> Result<(), AllocError>
        ensures { OnOk result (self.new ≡ self.old ++ params_tokens params.now) }
    {
        let Some((first, rest)) = params.split_first() else {
            return Ok(());
        };
        self.param(0, *first)?;
        for (i, t) in rest.iter().enumerate() {
            self.word(",")?;
            self.param(i + 1, *t)?;
        }
        Ok(())
    }

    fn param(&mut self, k: usize, t: Ty) -> Result<(), AllocError>
        ensures { OnOk result (self.new ≡ self.old ++ numbered_param_tokens k t) }
    {
        self.ty(t)?;
        self.numbered("%p", k as u128)
    }
}

fn zero_word(count: u64) -> &'static str
    ensures { result.now ≡ zero_token count }
{
    if count == 1 { "0" } else { "zeroinitializer" }
}
