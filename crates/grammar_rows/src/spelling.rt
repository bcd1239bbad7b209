//! Modules as short texts: each form in round brackets, with its name, its own token
//! after an `@`, and what stands in it. Names stand as they are, numbers by their values, a float
//! or half by its raw, and a text in quotes, with each byte that is not printable as `\x` and two
//! hexadecimal digits.

use ctl_base::{ByteText, Memory};
use ctl_tree::{
    Arm, ArraySize, Assignment, Block, BraceList, Call, Chain, Constant, Definition, Direction,
    Expr, Field, For, ForStart, Function, If, Import, Initialiser, Level, Link, Literal,
    LiteralValue, Module, Operator, Parameter, Path, Place, PrintItem, QualifiedName, ShapeKind,
    ShapeName, SizedShape, Statement, Step, Unary, UnaryOperator, Variable,
};
use std::alloc::Global;
use std::fmt::Write;

/// A module as a text.
pub fn spelling(alloc: Global, module: &Module) -> Result<String, Memory> {
    let mut out = String::new(alloc);
    out.push_str("(module")?;
    for import in module.imports.as_slice() {
        put_import(&mut out, import)?;
    }
    for definition in module.definitions.as_slice() {
        put_definition(&mut out, definition)?;
    }
    close(&mut out)?;
    Ok(out)
}

// The beginning of a form.
fn open(out: &mut String, form: &str, token: u32) -> Result<(), Memory> {
    write!(out, " ({form}@{token}")?;
    Ok(())
}

fn close(out: &mut String) -> Result<(), Memory> {
    out.push_str(")")?;
    Ok(())
}

fn word(out: &mut String, word: &str) -> Result<(), Memory> {
    out.push_str(" ")?;
    out.push_str(word)?;
    Ok(())
}

fn put_bytes(out: &mut String, bytes: &ByteText) -> Result<(), Memory> {
    for byte in bytes.as_slice() {
        let byte = *byte;
        if byte < 32 || byte > 126 || byte == b'"' || byte == b'\\' {
            write!(out, "\\x{byte:02x}")?;
        } else {
            out.push(char::from(byte))?;
        }
    }
    Ok(())
}

fn put_name(out: &mut String, name: &ByteText) -> Result<(), Memory> {
    out.push_str(" ")?;
    put_bytes(out, name)
}

fn put_text(out: &mut String, text: &ByteText) -> Result<(), Memory> {
    out.push_str(" \"")?;
    put_bytes(out, text)?;
    out.push_str("\"")?;
    Ok(())
}

fn put_qualified_name(out: &mut String, name: &QualifiedName) -> Result<(), Memory> {
    open(out, "name", name.token)?;
    out.push_str(" ")?;
    if name.is_global {
        out.push_str("::")?;
    }
    for space in name.spaces.as_slice() {
        put_bytes(out, space)?;
        out.push_str("::")?;
    }
    put_bytes(out, &name.name)?;
    close(out)
}

fn put_literal(out: &mut String, literal: &Literal) -> Result<(), Memory> {
    let token = literal.token;
    match literal.value {
        LiteralValue::Whole(value) => write!(out, " (whole@{token} {value})")?,
        LiteralValue::Point(value) => {
            let raw = value.raw();
            write!(out, " (point@{token} {raw})")?;
        }
        LiteralValue::HalfPoint(value) => {
            let raw = value.raw();
            write!(out, " (halfpoint@{token} {raw})")?;
        }
        LiteralValue::Truth(value) => write!(out, " (truth@{token} {value})")?,
    }
    Ok(())
}

fn unary_word(operator: UnaryOperator) -> &'static str {
    match operator {
        UnaryOperator::Minus => "minus",
        UnaryOperator::Plus => "plus",
        UnaryOperator::Not => "not",
        UnaryOperator::BitNot => "bitnot",
    }
}

fn operator_word(operator: Operator) -> &'static str {
    match operator {
        Operator::Or => "or",
        Operator::And => "and",
        Operator::BitOr => "bitor",
        Operator::BitXor => "bitxor",
        Operator::BitAnd => "bitand",
        Operator::Equal => "equal",
        Operator::NotEqual => "notequal",
        Operator::Less => "less",
        Operator::AtMost => "atmost",
        Operator::Greater => "greater",
        Operator::AtLeast => "atleast",
        Operator::ShiftLeft => "shiftleft",
        Operator::ShiftRight => "shiftright",
        Operator::Add => "add",
        Operator::Subtract => "subtract",
        Operator::Multiply => "multiply",
        Operator::Divide => "divide",
        Operator::Remainder => "remainder",
    }
}

#[cycle(put_expression)]
fn put_expr(out: &mut String, expr: &Expr) -> Result<(), Memory> {
    match expr {
        Expr::Literal(literal) => put_literal(out, literal),
        Expr::Name(name) => put_qualified_name(out, name),
        Expr::Call(call) => put_call(out, call.get()),
        Expr::Path(path) => put_path(out, path),
        Expr::Unary(unary) => put_unary(out, unary),
        Expr::Chain(chain) => put_chain(out, chain),
    }
}

#[cycle(put_expression)]
fn put_call(out: &mut String, call: &Call) -> Result<(), Memory> {
    open(out, "call", call.token)?;
    put_qualified_name(out, &call.name)?;
    for argument in call.arguments.as_slice() {
        put_expr(out, argument)?;
    }
    close(out)
}

#[cycle(put_expression)]
fn put_path(out: &mut String, path: &Path) -> Result<(), Memory> {
    out.push_str(" (path")?;
    put_expr(out, path.root.get())?;
    for step in path.steps.as_slice() {
        put_step(out, step)?;
    }
    close(out)
}

#[cycle(put_expression)]
fn put_step(out: &mut String, step: &Step) -> Result<(), Memory> {
    match step {
        Step::Index(index) => {
            open(out, "index", index.token)?;
            put_expr(out, &index.index)?;
        }
        Step::Field(field) => {
            open(out, "dot", field.token)?;
            put_name(out, &field.name)?;
        }
    }
    close(out)
}

#[cycle(put_expression)]
fn put_unary(out: &mut String, unary: &Unary) -> Result<(), Memory> {
    open(out, unary_word(unary.operator), unary.token)?;
    put_expr(out, unary.operand.get())?;
    close(out)
}

#[cycle(put_expression)]
fn put_chain(out: &mut String, chain: &Chain) -> Result<(), Memory> {
    open(out, "chain", chain.token)?;
    put_expr(out, chain.first.get())?;
    for link in chain.links.as_slice() {
        put_link(out, link)?;
    }
    close(out)
}

#[cycle(put_expression)]
fn put_link(out: &mut String, link: &Link) -> Result<(), Memory> {
    open(out, operator_word(link.operator), link.token)?;
    put_expr(out, &link.operand)?;
    close(out)
}

fn put_shape(out: &mut String, shape: &ShapeName) -> Result<(), Memory> {
    let token = shape.token;
    match &shape.kind {
        ShapeKind::Bool => open(out, "bool", token)?,
        ShapeKind::Int => open(out, "int", token)?,
        ShapeKind::Unsigned => open(out, "unsigned", token)?,
        ShapeKind::Half => open(out, "half", token)?,
        ShapeKind::Float => open(out, "float", token)?,
        ShapeKind::Named(name) => {
            open(out, "named", token)?;
            put_qualified_name(out, name.get())?;
        }
    }
    close(out)
}

fn put_sizes(out: &mut String, sizes: &[ArraySize]) -> Result<(), Memory> {
    for size in sizes {
        open(out, "size", size.token)?;
        if let Some(size) = &size.size {
            put_expr(out, size)?;
        }
        close(out)?;
    }
    Ok(())
}

#[cycle(put_initialiser)]
fn put_initialiser(out: &mut String, value: &Initialiser) -> Result<(), Memory> {
    match value {
        Initialiser::Expr(value) => put_expr(out, value),
        Initialiser::List(list) => put_list(out, list),
    }
}

#[cycle(put_initialiser)]
fn put_list(out: &mut String, list: &BraceList) -> Result<(), Memory> {
    open(out, "list", list.token)?;
    for element in list.elements.as_slice() {
        put_initialiser(out, element)?;
    }
    close(out)
}

fn put_constant(out: &mut String, constant: &Constant) -> Result<(), Memory> {
    open(out, "const", constant.token)?;
    put_shape(out, &constant.shape)?;
    put_name(out, &constant.name)?;
    put_sizes(out, constant.sizes.as_slice())?;
    put_initialiser(out, &constant.value)?;
    close(out)
}

fn put_variable(out: &mut String, variable: &Variable) -> Result<(), Memory> {
    open(out, "variable", variable.token)?;
    put_shape(out, &variable.shape)?;
    put_name(out, &variable.name)?;
    put_sizes(out, variable.sizes.as_slice())?;
    if let Some(value) = &variable.value {
        put_initialiser(out, value)?;
    }
    close(out)
}

fn put_place(out: &mut String, place: &Place) -> Result<(), Memory> {
    out.push_str(" (place")?;
    put_qualified_name(out, &place.root)?;
    for step in place.steps.as_slice() {
        put_step(out, step)?;
    }
    close(out)
}

fn put_assignment(out: &mut String, assignment: &Assignment) -> Result<(), Memory> {
    open(out, "assign", assignment.token)?;
    put_place(out, &assignment.place)?;
    put_expr(out, &assignment.value)?;
    close(out)
}

fn put_item(out: &mut String, item: &PrintItem) -> Result<(), Memory> {
    match item {
        PrintItem::Text(text) => {
            open(out, "text", text.token)?;
            put_text(out, &text.text)?;
            close(out)
        }
        PrintItem::Expr(value) => put_expr(out, value),
    }
}

fn put_items(out: &mut String, items: &[PrintItem]) -> Result<(), Memory> {
    for item in items {
        put_item(out, item)?;
    }
    Ok(())
}

fn put_start(out: &mut String, start: &ForStart) -> Result<(), Memory> {
    match start {
        ForStart::Variable(variable) => put_variable(out, variable),
        ForStart::Assignment(assignment) => put_assignment(out, assignment),
    }
}

#[cycle(put_statement)]
fn put_statement(out: &mut String, statement: &Statement) -> Result<(), Memory> {
    match statement {
        Statement::Block(block) => return put_block(out, block),
        Statement::Constant(constant) => return put_constant(out, constant.get()),
        Statement::Variable(variable) => return put_variable(out, variable.get()),
        Statement::Assignment(assignment) => return put_assignment(out, assignment.get()),
        Statement::Call(call) => return put_call(out, call.get()),
        Statement::If(choice) => return put_if(out, choice),
        Statement::For(turns) => return put_for(out, turns.get()),
        Statement::While(turns) => {
            let turns = turns.get();
            open(out, "while", turns.token)?;
            put_expr(out, &turns.test)?;
            put_statement(out, &turns.body)?;
        }
        Statement::Return(end) => {
            let end = end.get();
            open(out, "return", end.token)?;
            if let Some(value) = &end.value {
                put_expr(out, value)?;
            }
        }
        Statement::Print(print) => {
            open(out, "print", print.token)?;
            put_items(out, print.items.as_slice())?;
        }
        Statement::Empty(empty) => open(out, "empty", empty.token)?,
    }
    close(out)
}

#[cycle(put_statement)]
fn put_block(out: &mut String, block: &Block) -> Result<(), Memory> {
    open(out, "block", block.token)?;
    for statement in block.statements.as_slice() {
        put_statement(out, statement)?;
    }
    close(out)
}

#[cycle(put_statement)]
fn put_if(out: &mut String, choice: &If) -> Result<(), Memory> {
    open(out, "if", choice.token)?;
    for arm in choice.arms.as_slice() {
        put_arm(out, arm)?;
    }
    if let Some(otherwise) = &choice.otherwise {
        out.push_str(" (else")?;
        put_statement(out, otherwise.get())?;
        close(out)?;
    }
    close(out)
}

#[cycle(put_statement)]
fn put_arm(out: &mut String, arm: &Arm) -> Result<(), Memory> {
    out.push_str(" (arm")?;
    put_expr(out, &arm.test)?;
    put_statement(out, arm.body.get())?;
    close(out)
}

#[cycle(put_statement)]
fn put_for(out: &mut String, turns: &For) -> Result<(), Memory> {
    open(out, "for", turns.token)?;
    put_start(out, &turns.start)?;
    put_expr(out, &turns.test)?;
    put_assignment(out, &turns.next)?;
    put_statement(out, &turns.body)?;
    close(out)
}

fn put_parameter(out: &mut String, parameter: &Parameter) -> Result<(), Memory> {
    open(out, "param", parameter.token)?;
    match parameter.direction {
        Some(Direction::Input) => word(out, "input")?,
        Some(Direction::Output) => word(out, "output")?,
        None => {}
    }
    match parameter.level {
        Some(Level::Uniform) => word(out, "uniform")?,
        Some(Level::Varying) => word(out, "varying")?,
        None => {}
    }
    put_shape(out, &parameter.shape)?;
    put_name(out, &parameter.name)?;
    put_sizes(out, parameter.sizes.as_slice())?;
    if let Some(value) = &parameter.value {
        put_initialiser(out, value)?;
    }
    close(out)
}

fn put_result(out: &mut String, result_shape: &SizedShape) -> Result<(), Memory> {
    out.push_str(" (result")?;
    put_shape(out, &result_shape.shape)?;
    put_sizes(out, result_shape.sizes.as_slice())?;
    close(out)
}

fn put_function(out: &mut String, function: &Function) -> Result<(), Memory> {
    open(out, "function", function.token)?;
    match &function.result {
        None => word(out, "void")?,
        Some(shape) => put_result(out, shape)?,
    }
    put_name(out, &function.name)?;
    for parameter in function.parameters.as_slice() {
        put_parameter(out, parameter)?;
    }
    put_block(out, &function.body)?;
    close(out)
}

fn put_field(out: &mut String, field: &Field) -> Result<(), Memory> {
    open(out, "field", field.token)?;
    put_shape(out, &field.shape)?;
    put_name(out, &field.name)?;
    put_sizes(out, field.sizes.as_slice())?;
    close(out)
}

fn put_import(out: &mut String, import: &Import) -> Result<(), Memory> {
    open(out, "import", import.token)?;
    put_text(out, &import.name)?;
    close(out)
}

#[cycle(put_definition)]
fn put_definition(out: &mut String, definition: &Definition) -> Result<(), Memory> {
    match definition {
        Definition::Constant(constant) => return put_constant(out, constant),
        Definition::Function(function) => return put_function(out, function),
        Definition::Namespace(space) => {
            open(out, "namespace", space.token)?;
            put_name(out, &space.name)?;
            for inner in space.definitions.as_slice() {
                put_definition(out, inner)?;
            }
        }
        Definition::Struct(shape) => {
            open(out, "struct", shape.token)?;
            put_name(out, &shape.name)?;
            for field in shape.fields.as_slice() {
                put_field(out, field)?;
            }
        }
    }
    close(out)
}
