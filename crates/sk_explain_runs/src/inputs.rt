//! The inputs of a function, in order.
use sk_base::List;
use sk_prog::{Elem, ParamDef, Ty, Value};
use std::alloc::{AllocError, Global};

/// So many bits of inputs are tried.
const MOST_BITS: u64 = 8;

// The bits of a number that are not read yet, the least first.
#[derive(Drop)]
struct Bits {
    rest: u64,
}

impl Bits {
    // The number that the next bits are.
    fn take(&mut self, count: u32) -> i64 {
        let mut value = 0i64;
        let mut place = 1i64;
        for _bit in 0..count {
            if self.rest % 2 == 1 {
                value = value.saturating_add(place);
            }
            place = place.saturating_mul(2);
            self.rest = self.rest / 2;
        }
        value
    }

    fn scalar(&mut self, inbits: u32, elem: Elem) -> Value {
        match elem {
            Elem::Bit => Value::Bit(self.take(1) == 1),
            Elem::Int => Value::Int(self.take(inbits)),
            Elem::Reference(_) => Value::Null,
        }
    }

    fn array(
        &mut self,
        alloc: Global,
        inbits: u32,
        elem: Elem,
        count: u32,
    ) -> Result<Value, AllocError> {
        let mut items = List::new(alloc);
        for _at in 0..count {
            items.push(self.scalar(inbits, elem))?;
        }
        Ok(Value::Array(items))
    }

    fn grid(
        &mut self,
        alloc: Global,
        inbits: u32,
        elem: Elem,
        inner: u32,
        count: u32,
    ) -> Result<Value, AllocError> {
        let mut rows = List::new(alloc);
        for _at in 0..count {
            let row = self.array(alloc, inbits, elem, inner)?;
            rows.push(row)?;
        }
        Ok(Value::Array(rows))
    }

    fn value(&mut self, alloc: Global, inbits: u32, ty: Ty) -> Result<Value, AllocError> {
        match ty {
            Ty::One(elem) => Ok(self.scalar(inbits, elem)),
            Ty::Array(elem, count) => self.array(alloc, inbits, elem, count),
            Ty::Grid(elem, inner, count) => self.grid(alloc, inbits, elem, inner, count),
        }
    }
}

// Of how many bits a scalar is.
fn scalar_bits(inbits: u32, elem: Elem) -> u64 {
    match elem {
        Elem::Bit => 1,
        Elem::Int => u64::from(inbits),
        Elem::Reference(_) => 0,
    }
}

// Of how many bits a value of a type is.
fn bits_of(inbits: u32, ty: Ty) -> u64 {
    match ty {
        Ty::One(elem) => scalar_bits(inbits, elem),
        Ty::Array(elem, count) => scalar_bits(inbits, elem).saturating_mul(u64::from(count)),
        Ty::Grid(elem, inner, count) => scalar_bits(inbits, elem)
            .saturating_mul(u64::from(inner))
            .saturating_mul(u64::from(count)),
    }
}

// Of how many bits the inputs of some parameters are.
fn width(inbits: u32, params: &[ParamDef]) -> u64 {
    let mut width = 0u64;
    for param in params {
        width = width.saturating_add(bits_of(inbits, param.ty));
    }
    width
}

/// Whether all inputs of some parameters are tried.
pub fn are_few(inbits: u32, params: &[ParamDef]) -> bool {
    width(inbits, params) <= MOST_BITS
}

/// How many inputs of some parameters are tried.
pub fn count(inbits: u32, params: &[ParamDef]) -> u64 {
    let mut count = 1u64;
    for _bit in 0..width(inbits, params).min(MOST_BITS) {
        count = count.saturating_mul(2);
    }
    count
}

/// The arguments for some parameters that the bits of a number are.
pub fn arguments(
    alloc: Global,
    inbits: u32,
    params: &[ParamDef],
    number: u64,
) -> Result<List<Value>, AllocError> {
    let mut bits = Bits { rest: number };
    let mut args = List::new(alloc);
    for param in params {
        let value = bits.value(alloc, inbits, param.ty)?;
        args.push(value)?;
    }
    Ok(args)
}
