//! Calls that take memory, each run once.

use ctl_base::{Memory, ScalarKind};
use ctl_stdlib::LibraryId;
use ctl_types::{Extent, OpenSizes, RowParam, Scalar, Shape, Size, SizeList, Value, row_of};
use fix_num::Fix;
use sqlite_items::{Boxed, Items};
use std::alloc::Global;

fn int(n: i32) -> Value {
    Value::One(Scalar::Int(n))
}

/// Three numbers, one after the other.
fn row(alloc: Global, first: i32) -> Result<Value, Memory> {
    let mut elements = Items::new(alloc);
    elements.push(int(first))?;
    elements.push(int(first.wrapping_add(1)))?;
    elements.push(int(first.wrapping_add(2)))?;
    Ok(Value::List(elements))
}

/// Two rows, from 1 to 6.
fn rows(alloc: Global) -> Result<Value, Memory> {
    let mut all = Items::new(alloc);
    all.push(row(alloc, 1)?)?;
    all.push(row(alloc, 4)?)?;
    Ok(Value::List(all))
}

#[test]
fn a_copy_has_the_words_of_its_source(rt: HostRuntime) -> Result<(), Memory> {
    let copy = rows(rt.alloc())?.copy(rt.alloc())?;
    let mut words = Items::new(rt.alloc());
    copy.append_words(&mut words)?;
    assert_eq!(rt; words.len(), 6);
    for (word, n) in words.as_slice().iter().zip(1..7i64) {
        assert_eq!(rt; word.raw(), n);
    }
    assert_eq!(rt;
        Scalar::from_word(ScalarKind::Bool, Fix::from_raw(1))
            .word()
            .raw(),
        1
    );
    Ok(())
}

#[test]
fn a_row_has_its_open_sizes_outside(rt: HostRuntime) -> Result<(), Memory> {
    let row = row_of(rt.alloc(), LibraryId::Interpolate1D)?;
    assert_eq!(rt; row.params.len(), 2);
    assert!(rt;
        matches!(
            row.params.get(0),
            Some(RowParam {
                shape: Shape::Array(_, Extent::Unstated),
                is_output: false
            })
        )
    );
    Ok(())
}

#[test]
fn an_open_size_is_the_number_of_elements(rt: HostRuntime) -> Result<(), Memory> {
    let float = Boxed::new(rt.alloc(), Shape::Scalar(ScalarKind::Float))?;
    let shape = Shape::Array(float, Extent::Unstated);
    let mut elements = Items::new(rt.alloc());
    elements.push(int(1))?;
    elements.push(int(2))?;
    let value = Value::List(elements);
    let mut sizes = OpenSizes::new(rt.alloc());
    shape.append_open_sizes(Some(&value), &mut sizes)?;
    assert_eq!(rt; sizes.as_slice(), [2].as_slice());
    Ok(())
}

#[test]
fn sizes_stand_in_their_order(rt: HostRuntime) -> Result<(), Memory> {
    let mut sizes = SizeList::new(rt.alloc());
    sizes.push(Size::Open(0))?;
    assert_eq!(rt; sizes.as_slice().len(), 1);
    Ok(())
}
