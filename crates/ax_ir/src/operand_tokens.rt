//! The tokens of types, operands and pointers.

ghost use Rattle.std.specs.Prelude.{◌≡◌, ◌∷◌, ◌++◌, [], OnOk};
ghost use Rattle.ax_ir.specs.OperandTokens.{type_tokens, array_tokens, elements_tokens, align_tokens, value_token, block_token, label_tokens, operand_token, typed_tokens, base_token, pointer_tokens, gep_tokens, constant_gep_tokens, addr_tokens, arg_tokens};

use crate::tokens::Tokens;
use ax_module::{Addr, Arg, Base, Operand, Ty};
use std::alloc::AllocError;

impl Tokens {
    pub(crate) fn ty(&mut self, t: Ty) -> Result<(), AllocError>
        ensures { OnOk result (self.new ≡ self.old ++ type_tokens t) }
    {
        match t {
            Ty::I1 => self.word("i1"),
            Ty::I8 => self.word("i8"),
            Ty::I16 => self.word("i16"),
            Ty::I32 => self.word("i32"),
            Ty::I64 => self.word("i64"),
            Ty::I128 => self.word("i128"),
            Ty::Int(bits) => self.numbered("i", u128::from(bits)),
            Ty::Float => self.word("float"),
            Ty::Double => self.word("double"),
            Ty::Ptr => self.word("ptr"),
            Ty::Vector => self.words(&["<", "1", "x", "i8", ">"]),
        }
    }

    #[tactic(auto, unfolding(crate::specs::OperandTokens::array_tokens))]
    pub(crate) fn array(&mut self, count: u64, elem: Ty) -> Result<(), AllocError>
        ensures { OnOk result (self.new ≡ self.old ++ array_tokens count elem) }
    {
        self.word("[")?;
        self.number(u128::from(count))?;
        self.word("x")?;
        self.ty(elem)?;
        self.word("]")
    }

    /// The type of a global or an alloca: one element is no array.
    #[tactic(auto, unfolding(crate::specs::OperandTokens::elements_tokens))]
    pub(crate) fn elements(&mut self, count: u64, elem: Ty) -> Result<(), AllocError>
        ensures { OnOk result (self.new ≡ self.old ++ elements_tokens count elem) }
    {
        if count == 1 {
            self.ty(elem)
        } else {
            self.array(count, elem)
        }
    }

    pub(crate) fn align(&mut self, align: Option<u64>) -> Result<(), AllocError>
        ensures { OnOk result (self.new ≡ self.old ++ align_tokens align) }
    {
        match align {
            None => Ok(()),
            Some(bytes) => {
                self.words(&[",", "align"])?;
                self.number(u128::from(bytes))
            }
        }
    }

    pub(crate) fn value(&mut self, k: u128) -> Result<(), AllocError>
        ensures { OnOk result (self.new ≡ self.old ++ value_token k ∷ []) }
    {
        self.numbered("%v", k)
    }

    pub(crate) fn block(&mut self, block: u32) -> Result<(), AllocError>
        ensures { OnOk result (self.new ≡ self.old ++ block_token block ∷ []) }
    {
        self.numbered("%b", u128::from(block))
    }

    #[tactic(auto, unfolding(crate::specs::OperandTokens::label_tokens))]
    pub(crate) fn label(&mut self, block: u32) -> Result<(), AllocError>
        ensures { OnOk result (self.new ≡ self.old ++ label_tokens block) }
    {
        self.word("label")?;
        self.block(block)
    }

    pub(crate) fn operand(&mut self, v: Operand) -> Result<(), AllocError>
        ensures { OnOk result (self.new ≡ self.old ++ operand_token v ∷ []) }
    {
        match v {
            Operand::Const(n) => self.signed(n),
            Operand::Wide(n) => self.number(n),
            Operand::Value(k) => self.value(u128::from(k)),
            Operand::Param(k) => self.numbered("%p", u128::from(k)),
        }
    }

    #[tactic(auto, unfolding(crate::specs::OperandTokens::typed_tokens))]
    pub(crate) fn typed(&mut self, t: Ty, v: Operand) -> Result<(), AllocError>
        ensures { OnOk result (self.new ≡ self.old ++ typed_tokens t v) }
    {
        self.ty(t)?;
        self.operand(v)
    }

    fn base(&mut self, names: &Tokens, base: Base) -> Result<(), AllocError>
        ensures { OnOk result (self.new ≡ self.old ++ base_token names.now base ∷ []) }
    {
        match base {
            Base::Global(g) => self.word(names.at(g)),
            Base::Value(k) => self.value(u128::from(k)),
            Base::Param(k) => self.numbered("%p", u128::from(k)),
        }
    }

    #[tactic(auto, unfolding(crate::specs::OperandTokens::pointer_tokens))]
    fn pointer(&mut self, names: &Tokens, base: Base) -> Result<(), AllocError>
        ensures { OnOk result (self.new ≡ self.old ++ pointer_tokens names.now base) }
    {
        self.word("ptr")?;
        self.base(names, base)
    }

    /// What stands behind the word `getelementptr`.
    #[tactic(auto, unfolding(crate::specs::OperandTokens::gep_tokens))]
    pub(crate) fn gep(
        &mut self,
        names: &Tokens,
        elem: Ty,
        count: u64,
        base: Base,
        t: Ty,
        v: Operand,
    ) -> Result<(), AllocError>
        ensures { OnOk result (self.new ≡ self.old ++ gep_tokens names.now elem count base t v) }
    {
        if count == 0 {
            self.ty(elem)?;
            self.word(",")?;
            self.pointer(names, base)?;
        } else {
            self.array(count, elem)?;
            self.word(",")?;
            self.pointer(names, base)?;
            self.words(&[",", "i64", "0"])?;
        }
        self.word(",")?;
        self.typed(t, v)
    }

    #[tactic(auto, unfolding(crate::specs::OperandTokens::constant_gep_tokens))]
    fn constant_gep(
        &mut self,
        names: &Tokens,
        elem: Ty,
        count: u64,
        base: Base,
        t: Ty,
        v: Operand,
    ) -> Result<(), AllocError>
        ensures { OnOk result (self.new ≡ self.old ++ constant_gep_tokens names.now elem count base t v) }
    {
        self.word("ptr")?;
        self.word("getelementptr")?;
        self.word("(")?;
        self.gep(names, elem, count, base, t, v)?;
        self.word(")")
    }

    pub(crate) fn addr(&mut self, names: &Tokens, a: Addr) -> Result<(), AllocError>
        ensures { OnOk result (self.new ≡ self.old ++ addr_tokens names.now a) }
    {
        match a.step {
            None => self.pointer(names, a.base),
            Some((elem, count, t, v)) => self.constant_gep(names, elem, count, a.base, t, v),
        }
    }

    pub(crate) fn arg(&mut self, names: &Tokens, arg: Arg) -> Result<(), AllocError>
        ensures { OnOk result (self.new ≡ self.old ++ arg_tokens names.now arg) }
    {
        match arg {
            Arg::Pointer(a) => self.addr(names, a),
            Arg::Value(t, v) => self.typed(t, v),
        }
    }
}
