//! Lists of operations: one without any, and the list that an expression was made of.
use expr_eval::{Op, Ops};
use rv_io::List;
use std::alloc::Global;
use std::test::Fail;

/// The operations, if they are an expression.
fn ops(alloc: Global, items: &[Op]) -> Result<Option<Ops>, Fail> {
    let mut list = List::new(alloc);
    for op in items {
        list.push(*op)?;
    }
    Ok(Ops::new(list))
}

#[test]
fn no_operations_are_no_expression(rt: HostRuntime) -> Result<(), Fail> {
    assert!(rt; ops(rt.alloc(), &[])?.is_none());
    Ok(())
}

#[test]
fn operations_come_back_as_they_were_given(rt: HostRuntime) -> Result<(), Fail> {
    let items = [Op::Cfa, Op::PlusConst(8), Op::Deref(8), Op::StackValue];
    match ops(rt.alloc(), &items)? {
        Some(ops) => assert!(rt; ops.as_slice() == items.as_slice()),
        None => assert!(rt; false),
    }
    Ok(())
}
