// The integer operations of the image, 1 to 38 (document 01), with PSW.

#![tactic(auto)]

ghost use Rattle.std.specs.Prelude.{◌≡◌};
ghost use Rattle.integer.specs.Integer.{compute_of, flagged, carried, plain};

use arithmetic::{absolute, products, saturating, sums};
use bitwise::{leading, logical, shift};
use compare::{choices, tests};
use fields::psw;
use words::result::{Carried, Flagged};

// The operations in document 01's order.
#[derive(Clone, Copy)]
pub enum Integer {
    Add,
    Sub,
    Rsub,
    Addx,
    Addc,
    Subx,
    Subc,
    Adds,
    AddsU,
    Subs,
    SubsU,
    Mul,
    And,
    Or,
    Xor,
    Nand,
    Nor,
    Xnor,
    Andn,
    Orn,
    Sh,
    Sha,
    Min,
    MinU,
    Max,
    MaxU,
    Abs,
    Absdif,
    Eq,
    Ne,
    Lt,
    LtU,
    Ge,
    GeU,
    Clz,
    Clo,
    Cls,
    Mov,
}

// The word that goes to D[c], and PSW afterwards.
#[derive(Clone, Copy)]
pub struct Computed {
    pub word: u32,
    pub psw: u32,
}

fn with_overflow(f: Flagged, psw: u32) -> Computed
    ensures { result ≡ flagged f psw }
{
    Computed {
        word: f.word,
        psw: psw::with_overflow(psw, f.v, f.av),
    }
}

fn with_flags(f: Carried, psw: u32) -> Computed
    ensures { result ≡ carried f psw }
{
    Computed {
        word: f.word,
        psw: psw::with_flags(psw, f.c, f.v, f.av),
    }
}

fn without_flags(w: u32, psw: u32) -> Computed
    ensures { result ≡ plain w psw }
{
    Computed { word: w, psw }
}

// The operation on D[a] and the second operand.
pub fn compute(op: Integer, a: u32, b: u32, psw: u32) -> Computed
    ensures { result ≡ compute_of op a b psw }
{
    match op {
        Integer::Add => with_overflow(sums::add(a, b), psw),
        Integer::Sub => with_overflow(sums::sub(a, b), psw),
        Integer::Rsub => with_overflow(sums::rsub(a, b), psw),
        Integer::Addx => with_flags(sums::addx(a, b), psw),
        Integer::Addc => with_flags(sums::addc(a, b, psw::carry(psw)), psw),
        Integer::Subx => with_flags(sums::subx(a, b), psw),
        Integer::Subc => with_flags(sums::subc(a, b, psw::carry(psw)), psw),
        Integer::Adds => with_overflow(saturating::adds(a, b), psw),
        Integer::AddsU => with_overflow(saturating::adds_u(a, b), psw),
        Integer::Subs => with_overflow(saturating::subs(a, b), psw),
        Integer::SubsU => with_overflow(saturating::subs_u(a, b), psw),
        Integer::Mul => with_overflow(products::mul(a, b), psw),
        Integer::And => without_flags(logical::and(a, b), psw),
        Integer::Or => without_flags(logical::or(a, b), psw),
        Integer::Xor => without_flags(logical::xor(a, b), psw),
        Integer::Nand => without_flags(logical::nand(a, b), psw),
        Integer::Nor => without_flags(logical::nor(a, b), psw),
        Integer::Xnor => without_flags(logical::xnor(a, b), psw),
        Integer::Andn => without_flags(logical::andn(a, b), psw),
        Integer::Orn => without_flags(logical::orn(a, b), psw),
        Integer::Sh => without_flags(shift::sh(a, b), psw),
        Integer::Sha => with_flags(shift::sha(a, b), psw),
        Integer::Min => without_flags(choices::min(a, b), psw),
        Integer::MinU => without_flags(choices::min_u(a, b), psw),
        Integer::Max => without_flags(choices::max(a, b), psw),
        Integer::MaxU => without_flags(choices::max_u(a, b), psw),
        Integer::Abs => with_overflow(absolute::abs(a), psw),
        Integer::Absdif => with_overflow(absolute::absdif(a, b), psw),
        Integer::Eq => without_flags(tests::eq(a, b), psw),
        Integer::Ne => without_flags(tests::ne(a, b), psw),
        Integer::Lt => without_flags(tests::lt(a, b), psw),
        Integer::LtU => without_flags(tests::lt_u(a, b), psw),
        Integer::Ge => without_flags(tests::ge(a, b), psw),
        Integer::GeU => without_flags(tests::ge_u(a, b), psw),
        Integer::Clz => without_flags(leading::clz(a), psw),
        Integer::Clo => without_flags(leading::clo(a), psw),
        Integer::Cls => without_flags(leading::cls(a), psw),
        Integer::Mov => without_flags(b, psw),
    }
}
