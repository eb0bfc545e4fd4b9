//! The middle code of the instructions that go through a pointer.

ghost use Rattle.std.specs.Prelude.{◌≡◌, ◌<◌, OnOk};
ghost use Rattle.ax_mid.specs.Built.{pushed};
ghost use Rattle.ax_words.specs.declared.mark.Op.TheVariants as operation;
ghost use Rattle.ax_selected.specs.Addresses.{index_of_step, object_of as object_of_base};
ghost use Rattle.ax_selected.specs.Selected.{atomic_load_lines, atomic_store_lines, exchange_lines, gep_lines, load_lines, store_lines, straight, update_lines};
ghost use Rattle.ax_reach.specs.Near.{IsNearAccess, IsNearAddr, IsNearExchange, IsNearNumber};
ghost use Rattle.ax_reach.specs.Ways.{access_lines, element_bytes, reached};

use crate::access::{Access, Exchange, push_lines};
use crate::place::Index;
use crate::pointers::Pointers;
use crate::ways::push_origin;
use ax_mid::{MidInst, Virtual};
use ax_module::{Addr, Base, Operand, Ty};
use ax_pieces::lines::{Code, acting, low_of};
use ax_words::{Op, Order, RmwOp};
use std::alloc::{AllocError, Global};

impl<'a> Pointers<'a> {
    /// The code of instruction `k`, an access through a pointer.
    #[tactic(auto, using(crate::proofs::Reached::through_is))]
    fn push_reach(
        &self,
        alloc: Global,
        code: &mut Code,
        k: u32,
        addr: Addr,
        access: Access,
    ) -> Result<(), AllocError>
        requires near { k < 2048 }
        requires addr { IsNearAddr addr }
        requires access { IsNearAccess access }
        ensures { OnOk result (code.new ≡ pushed (reached self.now.program self.now.function k addr (access_lines k (element_bytes self.now.program self.now.function addr) access)) code.old) }
    {
        let to = self.pointing(addr);
        let bytes = self.extent(to.object).elem.bytes() as u8;
        self.push_way(code, k, to)?;
        push_lines(alloc, code, self.site(k), access, bytes)
    }

    /// The code of instruction `k`, a plain load (LLVM Language Reference, `load`). It fails only where
    /// there is no memory, as all of these.
    pub fn push_load(
        &self,
        alloc: Global,
        code: &mut Code,
        k: u32,
        ty: Ty,
        addr: Addr,
    ) -> Result<(), AllocError>
        requires near { k < 2048 }
        requires addr { IsNearAddr addr }
        ensures { OnOk result (code.new ≡ pushed (reached self.now.program self.now.function k addr (load_lines k ty (element_bytes self.now.program self.now.function addr))) code.old) }
    {
        self.push_reach(alloc, code, k, addr, Access::Load(ty))
    }

    /// The code of instruction `k`, a plain store (LLVM Language Reference, `store`).
    pub fn push_store(
        &self,
        alloc: Global,
        code: &mut Code,
        k: u32,
        ty: Ty,
        operand: Operand,
        addr: Addr,
    ) -> Result<(), AllocError>
        requires near { k < 2048 }
        requires addr { IsNearAddr addr }
        requires number { IsNearNumber ty operand }
        ensures { OnOk result (code.new ≡ pushed (reached self.now.program self.now.function k addr (store_lines ty operand (element_bytes self.now.program self.now.function addr))) code.old) }
    {
        self.push_reach(alloc, code, k, addr, Access::Store(ty, operand))
    }

    /// The code of instruction `k`, an atomic load.
    pub fn push_load_atomic(
        &self,
        alloc: Global,
        code: &mut Code,
        k: u32,
        ty: Ty,
        addr: Addr,
        order: Order,
    ) -> Result<(), AllocError>
        requires near { k < 2048 }
        requires addr { IsNearAddr addr }
        ensures { OnOk result (code.new ≡ pushed (reached self.now.program self.now.function k addr (atomic_load_lines k ty order)) code.old) }
    {
        self.push_reach(alloc, code, k, addr, Access::LoadAtomic(ty, order))
    }

    /// The code of instruction `k`, an atomic store.
    pub fn push_store_atomic(
        &self,
        alloc: Global,
        code: &mut Code,
        k: u32,
        ty: Ty,
        operand: Operand,
        addr: Addr,
        order: Order,
    ) -> Result<(), AllocError>
        requires near { k < 2048 }
        requires addr { IsNearAddr addr }
        requires number { IsNearNumber ty operand }
        ensures { OnOk result (code.new ≡ pushed (reached self.now.program self.now.function k addr (atomic_store_lines ty operand order)) code.old) }
    {
        self.push_reach(
            alloc,
            code,
            k,
            addr,
            Access::StoreAtomic(ty, operand, order),
        )
    }

    /// The code of instruction `k`, a read-modify-write (LLVM Language Reference, `atomicrmw`).
    pub fn push_rmw(
        &self,
        alloc: Global,
        code: &mut Code,
        k: u32,
        op: RmwOp,
        addr: Addr,
        ty: Ty,
        operand: Operand,
        order: Order,
    ) -> Result<(), AllocError>
        requires near { k < 2048 }
        requires addr { IsNearAddr addr }
        requires number { IsNearNumber ty operand }
        ensures { OnOk result (code.new ≡ pushed (reached self.now.program self.now.function k addr (update_lines k (operation.Rmw op) ty operand order)) code.old) }
    {
        self.push_reach(
            alloc,
            code,
            k,
            addr,
            Access::Update(Op::Rmw(op), ty, operand, order),
        )
    }

    /// The code of instruction `k`, a compare-exchange (LLVM Language Reference, `cmpxchg`).
    pub fn push_cmpxchg(
        &self,
        alloc: Global,
        code: &mut Code,
        k: u32,
        addr: Addr,
        x: Exchange,
    ) -> Result<(), AllocError>
        requires near { k < 2048 }
        requires addr { IsNearAddr addr }
        requires exchange { IsNearExchange x }
        ensures { OnOk result (code.new ≡ pushed (reached self.now.program self.now.function k addr (exchange_lines k x.weak x.ty x.expected x.desired_ty x.desired x.order)) code.old) }
    {
        self.push_reach(alloc, code, k, addr, Access::Compare(x))
    }

    /// The code of instruction `k`, a getelementptr: the type of its elements, its base, and its index
    /// with its type (LLVM Language Reference, `getelementptr`).
    pub fn push_gep(
        &self,
        code: &mut Code,
        k: u32,
        elem: Ty,
        base: Base,
        ty: Ty,
        index: Operand,
    ) -> Result<(), AllocError>
        requires near { k < 2048 }
        requires number { IsNearNumber ty index }
        ensures { OnOk result (code.new ≡ pushed (straight self.now.function k (gep_lines self.now.function k (index_of_step self.now.program self.now.function (object_of_base self.now.program self.now.function base) elem ty index))) code.old) }
    {
        let site = self.site(k);
        let result = Virtual(low_of(k));
        match self.step_index(self.object(base), elem, ty, index) {
            Index::Fixed(i) => acting(code, site, MidInst::Const(result, i)),
            Index::Brought(origin) => {
                push_origin(code, site, origin)?;
                acting(code, site, MidInst::Copy(result, Virtual(1)))
            }
        }
    }
}
