//! Worked counts.

use crate::{Cells, Definitions, constant_cells, function_cells, function_parts, more_cells};
use ctl_base::{ByteText, Memory, Node, ScalarKind};
use ctl_types::{
    Assignment, Base, Constant, Conversion, Declaration, Extent, Field, Function, LocalShape,
    Operand, Parameter, PrintItem, Scalar, Shape, Size, SizeList, Struct, TypedExpr, TypedPlace,
    TypedStatement, TypedStep, Value,
};
use sqlite_items::{Boxed, Items};
use std::alloc::Global;

const NODE: Node = Node {
    module: 0,
    token: 0,
};

fn local(alloc: Global, sizes: &[u32]) -> Result<LocalShape, Memory> {
    let mut all = SizeList::new(alloc);
    for size in sizes {
        all.push(Size::Stated(*size))?;
    }
    Ok(LocalShape {
        sizes: all,
        base: Base::Scalar(ScalarKind::Float),
    })
}

fn declare(alloc: Global, variable: u32, sizes: &[u32]) -> Result<TypedStatement, Memory> {
    let declaration = Declaration {
        variable,
        is_constant: false,
        shape: local(alloc, sizes)?,
        first: None,
    };
    Ok(TypedStatement::Declare(Boxed::new(alloc, declaration)?))
}

fn first_index() -> TypedStep {
    TypedStep::Index(TypedExpr::Literal(Scalar::Int(0)), NODE)
}

// The first scalar of variable 0 goes to variable 1.
fn assign(alloc: Global) -> Result<TypedStatement, Memory> {
    let mut steps = Items::new(alloc);
    steps.push(first_index())?;
    steps.push(first_index())?;
    let root = Boxed::new(alloc, TypedExpr::Variable(0))?;
    let assignment = Assignment {
        place: TypedPlace {
            variable: 1,
            steps: Items::new(alloc),
        },
        value: Operand {
            value: TypedExpr::Path(root, steps),
            conversion: Conversion::Same,
        },
    };
    Ok(TypedStatement::Assign(Boxed::new(alloc, assignment)?))
}

fn function(
    alloc: Global,
    parameters: Items<Parameter>,
    variables: u32,
    body: TypedStatement,
) -> Result<Function, Memory> {
    Ok(Function {
        name: ByteText::new(alloc, &[102])?,
        node: NODE,
        parameters,
        result: None,
        variables,
        body,
    })
}

fn cells_are(cells: Cells, total: u64, varying: u64) -> bool {
    cells.total == total && cells.varying == varying
}

#[test]
fn a_large_table_is_named_often(rt: HostRuntime) -> Result<(), Memory> {
    let alloc = rt.alloc();
    let mut statements = Items::new(alloc);
    statements.push(declare(alloc, 0, &[16, 65_536])?)?;
    statements.push(declare(alloc, 1, &[])?)?;
    for _ in 0..120 {
        statements.push(assign(alloc)?)?;
    }
    let body = TypedStatement::Block(statements);
    let function = function(alloc, Items::new(alloc), 2, body)?;
    let definitions = Definitions::new(alloc, &[], &[], &[])?;
    let parts = function_parts(alloc, &definitions, &function, &[])?;
    assert_eq!(rt; parts, 133_694_523);
    let cells = function_cells(
        alloc,
        &definitions,
        &function,
        &[],
        false,
        &[false, true],
        false,
    )?;
    assert!(rt; cells_are(cells, 1_048_577, 1));
    let cells = function_cells(alloc, &definitions, &function, &[], true, &[], false)?;
    assert!(rt; cells_are(more_cells(cells, cells), 2_097_154, 2_097_154));
    Ok(())
}

#[test]
fn an_open_size_is_that_of_the_instance(rt: HostRuntime) -> Result<(), Memory> {
    let alloc = rt.alloc();
    let element = Boxed::new(alloc, Shape::Scalar(ScalarKind::Float))?;
    let mut parameters = Items::new(alloc);
    parameters.push(Parameter {
        name: ByteText::new(alloc, &[97])?,
        node: NODE,
        shape: Shape::Array(element, Extent::Unstated),
        is_output: false,
        level: None,
        default: None,
    })?;
    let mut items = Items::new(alloc);
    items.push(PrintItem::Value(TypedExpr::Variable(0)))?;
    let function = function(alloc, parameters, 0, TypedStatement::Print(items))?;
    let definitions = Definitions::new(alloc, &[], &[], &[])?;
    assert_eq!(rt; function_parts(alloc, &definitions, &function, &[7])?, 9);
    let cells = function_cells(alloc, &definitions, &function, &[7], false, &[true], false)?;
    assert!(rt; cells_are(cells, 7, 7));
    Ok(())
}

#[test]
fn structs_count_their_fields(rt: HostRuntime) -> Result<(), Memory> {
    let alloc = rt.alloc();
    let pair = Boxed::new(alloc, Shape::Scalar(ScalarKind::Float))?;
    let mut fields = Items::new(alloc);
    fields.push(Field {
        name: ByteText::new(alloc, &[97])?,
        shape: Shape::Array(pair, Extent::Stated(2)),
    })?;
    fields.push(Field {
        name: ByteText::new(alloc, &[98])?,
        shape: Shape::Scalar(ScalarKind::Int),
    })?;
    let constant = Constant {
        shape: Shape::Struct(0),
        value: Value::One(Scalar::Int(0)),
    };
    let structs = [Struct { fields }];
    let constants = [constant];
    let definitions = Definitions::new(alloc, &structs, &constants, &[])?;
    assert!(rt; cells_are(constant_cells(alloc, &definitions)?, 3, 0));
    Ok(())
}
