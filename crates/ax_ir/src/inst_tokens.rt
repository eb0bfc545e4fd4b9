//! The tokens of instructions.

ghost use Rattle.std.specs.Prelude.{◌≡◌, ◌∷◌, ◌++◌, [], OnOk};
ghost use Rattle.ax_module.specs.Names.{IsAscii};
ghost use Rattle.ax_ir.specs.OperandTokens.{parted, arg_tokens};
ghost use Rattle.ax_module.specs.Ascii.{called_name};
ghost use Rattle.ax_ir.specs.InstTokens.{entry_tokens, result_type_tokens, weak_tokens, scope_tokens, pair_tokens, inst_tokens, result_tokens, numbered_inst_tokens};

use crate::tokens::Tokens;
use ax_module::{Addr, Arg, Base, BinOp, Cast, Inst, Name, Operand, Pred, Ty};
use ax_words::{Order, RmwOp};
use std::alloc::AllocError;

impl Tokens {
    /// Instruction number `k` of its function. `names` has the globals' tokens.
    pub(crate) fn numbered_inst(
        &mut self,
        names: &Tokens,
        k: u128,
        inst: &Inst,
    ) -> Result<(), AllocError>
        requires { IsAscii (called_name inst.now) }
        ensures { OnOk result (self.new ≡ self.old ++ numbered_inst_tokens names.now k inst.now) }
    {
        self.result(k, inst)?;
        self.inst(names, inst)
    }

    fn result(&mut self, k: u128, inst: &Inst) -> Result<(), AllocError>
        ensures { OnOk result (self.new ≡ self.old ++ result_tokens k inst.now) }
    {
        if inst.has_result() {
            self.value(k)?;
            self.word("=")?;
        }
        Ok(())
    }

    #[tactic(auto, unfolding(crate::specs::InstTokens::inst_tokens, ax_module::specs::Ascii::called_name))]
    fn inst(&mut self, names: &Tokens, inst: &Inst) -> Result<(), AllocError>
        requires { IsAscii (called_name inst.now) }
        ensures { OnOk result (self.new ≡ self.old ++ inst_tokens names.now inst.now) }
    {
        match inst {
            Inst::Bin(op, t, v, w) => self.binary(*op, *t, *v, *w),
            Inst::Icmp(condition, t, v, w) => self.icmp(*condition, *t, *v, *w),
            Inst::Select(c, t, v, u, w) => self.select(*c, *t, *v, *u, *w),
            Inst::Convert(cast, t, v, u) => self.convert(*cast, *t, *v, *u),
            Inst::Phi(t, entries) => self.phi(*t, entries.as_slice()),
            Inst::Jump(b) => self.jump(*b),
            Inst::Branch(v, b, c) => self.branch(*v, *b, *c),
            Inst::RetVoid => self.words(&["ret", "void"]),
            Inst::Ret(t, v) => self.ret(*t, *v),
            Inst::Unreachable => self.word("unreachable"),
            Inst::Alloca(t, count, align) => self.alloca(*t, *count, *align),
            Inst::Gep(t, count, base, u, v) => self.pointer_step(names, *t, *count, *base, *u, *v),
            Inst::Load(t, a, align) => self.load(names, *t, *a, *align),
            Inst::LoadAtomic(t, a, order, n) => self.load_atomic(names, *t, *a, *order, *n),
            Inst::Store(t, v, a, align) => self.store(names, *t, *v, *a, *align),
            Inst::StoreAtomic(t, v, a, order, n) => self.store_atomic(
                names, *t, *v, *a, *order, *n,
            ),
            Inst::Cmpxchg(weak, a, t, v, u, w, success, failure, n) => {
                self.cmpxchg(names, *weak, *a, *t, *v, *u, *w, *success, *failure, *n)
            }
            Inst::Rmw(op, a, t, v, order, n) => self.rmw(names, *op, *a, *t, *v, *order, *n),
            Inst::Fence(single_thread, order) => self.fence(*single_thread, *order),
            Inst::Extract(t, v, part) => self.extract(*t, *v, *part),
            Inst::Call(t, name, args) => self.call(names, *t, name, args.as_slice()),
        }
    }

    #[tactic(auto, unfolding(crate::specs::InstTokens::inst_tokens))]
    fn binary(&mut self, op: BinOp, t: Ty, v: Operand, w: Operand) -> Result<(), AllocError>
        ensures { OnOk result (self.new ≡ self.old ++ inst_tokens [] (Inst.Bin op t v w)) }
    {
        self.word(op.word())?;
        self.typed(t, v)?;
        self.word(",")?;
        self.operand(w)
    }

    #[tactic(auto, unfolding(crate::specs::InstTokens::inst_tokens))]
    fn icmp(&mut self, condition: Pred, t: Ty, v: Operand, w: Operand) -> Result<(), AllocError>
        ensures { OnOk result (self.new ≡ self.old ++ inst_tokens [] (Inst.Icmp condition t v w)) }
    {
        self.words(&["icmp", condition.word()])?;
        self.typed(t, v)?;
        self.word(",")?;
        self.operand(w)
    }

    #[tactic(auto, unfolding(crate::specs::InstTokens::inst_tokens))]
    fn select(&mut self, c: Operand, t: Ty, v: Operand, u: Ty, w: Operand) -> Result<(), AllocError>
        ensures { OnOk result (self.new ≡ self.old ++ inst_tokens [] (Inst.Select c t v u w)) }
    {
        self.words(&["select", "i1"])?;
        self.operand(c)?;
        self.word(",")?;
        self.typed(t, v)?;
        self.word(",")?;
        self.typed(u, w)
    }

    #[tactic(auto, unfolding(crate::specs::InstTokens::inst_tokens))]
    fn convert(&mut self, cast: Cast, t: Ty, v: Operand, u: Ty) -> Result<(), AllocError>
        ensures { OnOk result (self.new ≡ self.old ++ inst_tokens [] (Inst.Convert cast t v u)) }
    {
        self.word(cast.word())?;
        self.typed(t, v)?;
        self.word("to")?;
        self.ty(u)
    }

    #[tactic(auto, unfolding(crate::specs::InstTokens::inst_tokens))]
    fn phi(&mut self, t: Ty, entries: &[(Operand, u32)]) -> Result<(), AllocError>
        ensures { OnOk result (self.new ≡ self.old ++ inst_tokens [] (Inst.Phi t entries.now)) }
    {
        self.word("phi")?;
        self.ty(t)?;
        self.entries(entries)
    }

    #[tactic(auto, unfolding(crate::specs::InstTokens::inst_tokens))]
    fn jump(&mut self, b: u32) -> Result<(), AllocError>
        ensures { OnOk result (self.new ≡ self.old ++ inst_tokens [] (Inst.Jump b)) }
    {
        self.word("br")?;
        self.label(b)
    }

    #[tactic(auto, unfolding(crate::specs::InstTokens::inst_tokens))]
    fn branch(&mut self, v: Operand, b: u32, c: u32) -> Result<(), AllocError>
        ensures { OnOk result (self.new ≡ self.old ++ inst_tokens [] (Inst.Branch v b c)) }
    {
        self.words(&["br", "i1"])?;
        self.operand(v)?;
        self.word(",")?;
        self.label(b)?;
        self.word(",")?;
        self.label(c)
    }

    #[tactic(auto, unfolding(crate::specs::InstTokens::inst_tokens))]
    fn ret(&mut self, t: Ty, v: Operand) -> Result<(), AllocError>
        ensures { OnOk result (self.new ≡ self.old ++ inst_tokens [] (Inst.Ret t v)) }
    {
        self.word("ret")?;
        self.typed(t, v)
    }

    #[tactic(auto, unfolding(crate::specs::InstTokens::inst_tokens))]
    fn extract(&mut self, t: Ty, v: Operand, part: u8) -> Result<(), AllocError>
        ensures { OnOk result (self.new ≡ self.old ++ inst_tokens [] (Inst.Extract t v part)) }
    {
        self.word("extractvalue")?;
        self.pair(t)?;
        self.operand(v)?;
        self.word(",")?;
        self.number(u128::from(part))
    }

    #[tactic(auto, unfolding(crate::specs::InstTokens::inst_tokens))]
    fn call(
        &mut self,
        names: &Tokens,
        t: Option<Ty>,
        name: &Name,
        args: &[Arg],
    ) -> Result<(), AllocError>
        requires { IsAscii name.now }
        ensures { OnOk result (self.new ≡ self.old ++ inst_tokens names.now (Inst.Call t name.now args.now)) }
    {
        self.word("call")?;
        self.result_type(t)?;
        self.global(name)?;
        self.word("(")?;
        self.args(names, args)?;
        self.word(")")
    }

    #[tactic(auto, unfolding(crate::specs::InstTokens::inst_tokens))]
    fn alloca(&mut self, t: Ty, count: u64, align: Option<u64>) -> Result<(), AllocError>
        ensures { OnOk result (self.new ≡ self.old ++ inst_tokens [] (Inst.Alloca t count align)) }
    {
        self.word("alloca")?;
        self.elements(count, t)?;
        self.align(align)
    }

    #[tactic(auto, unfolding(crate::specs::InstTokens::inst_tokens))]
    fn pointer_step(
        &mut self,
        names: &Tokens,
        t: Ty,
        count: u64,
        base: Base,
        u: Ty,
        v: Operand,
    ) -> Result<(), AllocError>
        ensures { OnOk result (self.new ≡ self.old ++ inst_tokens names.now (Inst.Gep t count base u v)) }
    {
        self.word("getelementptr")?;
        self.gep(names, t, count, base, u, v)
    }

    #[tactic(auto, unfolding(crate::specs::InstTokens::inst_tokens))]
    fn load(&mut self, names: &Tokens, t: Ty, a: Addr, align: Option<u64>) -> Result<(), AllocError>
        ensures { OnOk result (self.new ≡ self.old ++ inst_tokens names.now (Inst.Load t a align)) }
    {
        self.word("load")?;
        self.ty(t)?;
        self.word(",")?;
        self.addr(names, a)?;
        self.align(align)
    }

    #[tactic(auto, unfolding(crate::specs::InstTokens::inst_tokens))]
    fn load_atomic(
        &mut self,
        names: &Tokens,
        t: Ty,
        a: Addr,
        order: Order,
        align: u64,
    ) -> Result<(), AllocError>
        ensures { OnOk result (self.new ≡ self.old ++ inst_tokens names.now (Inst.LoadAtomic t a order align)) }
    {
        self.words(&["load", "atomic"])?;
        self.ty(t)?;
        self.word(",")?;
        self.addr(names, a)?;
        self.word(order.word())?;
        self.align(Some(align))
    }

    #[tactic(auto, unfolding(crate::specs::InstTokens::inst_tokens))]
    fn store(
        &mut self,
        names: &Tokens,
        t: Ty,
        v: Operand,
        a: Addr,
        align: Option<u64>,
    ) -> Result<(), AllocError>
        ensures { OnOk result (self.new ≡ self.old ++ inst_tokens names.now (Inst.Store t v a align)) }
    {
        self.word("store")?;
        self.typed(t, v)?;
        self.word(",")?;
        self.addr(names, a)?;
        self.align(align)
    }

    #[tactic(auto, unfolding(crate::specs::InstTokens::inst_tokens))]
    fn store_atomic(
        &mut self,
        names: &Tokens,
        t: Ty,
        v: Operand,
        a: Addr,
        order: Order,
        align: u64,
    ) -> Result<(), AllocError>
        ensures { OnOk result (self.new ≡ self.old ++ inst_tokens names.now (Inst.StoreAtomic t v a order align)) }
    {
        self.words(&["store", "atomic"])?;
        self.typed(t, v)?;
        self.word(",")?;
        self.addr(names, a)?;
        self.word(order.word())?;
        self.align(Some(align))
    }

    #[tactic(auto, unfolding(crate::specs::InstTokens::inst_tokens))]
    fn cmpxchg(
        &mut self,
        names: &Tokens,
        weak: bool,
        a: Addr,
        t: Ty,
        v: Operand,
        u: Ty,
        w: Operand,
        success: Order,
        failure: Order,
        align: u64,
    ) -> Result<(), AllocError>
        ensures { OnOk result (self.new ≡ self.old ++ inst_tokens names.now (Inst.Cmpxchg weak a t v u w success failure align)) }
    {
        self.word("cmpxchg")?;
        self.weak(weak)?;
        self.addr(names, a)?;
        self.word(",")?;
        self.typed(t, v)?;
        self.word(",")?;
        self.typed(u, w)?;
        self.words(&[success.word(), failure.word()])?;
        self.align(Some(align))
    }

    #[tactic(auto, unfolding(crate::specs::InstTokens::inst_tokens))]
    fn rmw(
        &mut self,
        names: &Tokens,
        op: RmwOp,
        a: Addr,
        t: Ty,
        v: Operand,
        order: Order,
        align: u64,
    ) -> Result<(), AllocError>
        ensures { OnOk result (self.new ≡ self.old ++ inst_tokens names.now (Inst.Rmw op a t v order align)) }
    {
        self.words(&["atomicrmw", op.word()])?;
        self.addr(names, a)?;
        self.word(",")?;
        self.typed(t, v)?;
        self.word(order.word())?;
        self.align(Some(align))
    }

    #[tactic(auto, unfolding(crate::specs::InstTokens::inst_tokens))]
    fn fence(&mut self, single_thread: bool, order: Order) -> Result<(), AllocError>
        ensures { OnOk result (self.new ≡ self.old ++ inst_tokens [] (Inst.Fence single_thread order)) }
    {
        self.word("fence")?;
        self.scope(single_thread)?;
        self.word(order.word())
    }

    #[tactic(auto, unfolding(crate::specs::InstTokens::weak_tokens))]
    fn weak(&mut self, weak: bool) -> Result<(), AllocError>
        ensures { OnOk result (self.new ≡ self.old ++ weak_tokens weak) }
    {
        if weak {
            self.word("weak")?;
        }
        Ok(())
    }

    #[tactic(auto, unfolding(crate::specs::InstTokens::scope_tokens))]
    fn scope(&mut self, single_thread: bool) -> Result<(), AllocError>
        ensures { OnOk result (self.new ≡ self.old ++ scope_tokens single_thread) }
    {
        if single_thread {
            self.word("syncscope")?;
            self.word("(")?;
            self.word("\"singlethread\"")?;
            self.word(")")?;
        }
        Ok(())
    }

    pub(crate) fn result_type(&mut self, t: Option<Ty>) -> Result<(), AllocError>
        ensures { OnOk result (self.new ≡ self.old ++ result_type_tokens t) }
    {
        match t {
            None => self.word("void"),
            Some(t) => self.ty(t),
        }
    }

    #[tactic(auto, unfolding(crate::specs::InstTokens::pair_tokens))]
    fn pair(&mut self, t: Ty) -> Result<(), AllocError>
        ensures { OnOk result (self.new ≡ self.old ++ pair_tokens t) }
    {
        self.word("{")?;
        self.ty(t)?;
        self.word(",")?;
        self.word("i1")?;
        self.word("}")
    }

    #[tactic(auto, unfolding(crate::specs::InstTokens::entry_tokens))]
    fn entry(&mut self, v: Operand, block: u32) -> Result<(), AllocError>
        ensures { OnOk result (self.new ≡ self.old ++ entry_tokens (v, block)) }
    {
        self.word("[")?;
        self.operand(v)?;
        self.word(",")?;
        self.block(block)?;
        self.word("]")
    }

    fn entries(&mut self, entries: &[(Operand, u32)]) -> Result<(), AllocError>
        ensures { OnOk result (self.new ≡ self.old ++ parted entry_tokens entries.now) }
    {
        let Some((first, rest)) = entries.split_first() else {
            return Ok(());
        };
        let (v, block) = *first;
        self.entry(v, block)?;
        for (v, block) in rest {
            self.word(",")?;
            self.entry(*v, *block)?;
        }
        Ok(())
    }

    fn args(&mut self, names: &Tokens, args: &[Arg]) -> Result<(), AllocError>
        ensures { OnOk result (self.new ≡ self.old ++ parted (arg_tokens names.now) args.now) }
    {
        let Some((first, rest)) = args.split_first() else {
            return Ok(());
        };
        self.arg(names, *first)?;
        for arg in rest {
            self.word(",")?;
            self.arg(names, *arg)?;
        }
        Ok(())
    }
}
