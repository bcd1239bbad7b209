//! What expressions, places, calls and statements do: one function for each form, and each ends as the run of its form
//! does, unless memory is wanting.

ghost use Rattle.std.specs.Prelude.{◌≡◌, ℕ, Some, [], map, slice_get};
ghost use Rattle.std.specs.Option.{option_copied};
ghost use Rattle.ctl_types.specs.Values.{Env, var_of, part_of};
ghost use Rattle.ctl_types.specs.declared.value.Value.{Value as ValueForm, out-Value};
ghost use Rattle.ctl_types.specs.Shapes.{size_in};
ghost use Rattle.ctl_types.specs.Run.{Normal};
ghost use Rattle.eval_values.specs.Uncounted.{Gives, Comes, pixel, go_on, give, held, found, linked, decided, steps_run, path_run, listed, sequence, loop_run, function_at, callee_of, pass_output, arms_run, otherwise_run, leave};
ghost use Rattle.eval_values.specs.Means.{bool_in};
ghost use Rattle.eval_tree.specs.Scene.{setting, run_expr, run_operand, run_call, run_place, run_step, run_link, run_argument, pass_argument, run_initialiser, first_value, run_declaration, run_assignment, run_start, run_item, run_items, left_value, run_statement, run_arm, run_round, statement_of};
ghost use Rattle.eval_tree.specs.Calls.{seen, passed, comes_of};

use crate::calls::{begin, bring_back, called_library, ended, fill_defaults, output_at};
use crate::ends::End;
use crate::scene::Scene;
use crate::sending::{Sending, Sent};
use crate::single::{
    constant, converted, decider_of, element, found_element, found_field, linked_value, part_value,
    sized_value, truth, unary_value, variable,
};
use crate::storing::{declare, zero};
use ctl_base::{Node, TrapKind};
use ctl_types::{
    Argument, Arm, Assignment, Callee, Conversion, Declaration, ForStart, Initialiser, Operand,
    PrintItem, Scalar, TypedCall, TypedExpr, TypedLink, TypedPlace, TypedStatement, TypedStep,
    Value,
};
use eval_values::{Path, Stop, assign, field_in, sizes_in, variable_of};
use sqlite_items::{Boxed, Items};
use std::alloc::Global;

/// What an expression gives.
#[cycle(run)]
pub fn eval(
    alloc: Global,
    expr: &TypedExpr,
    scene: &Scene<'_>,
    env: &mut Vec<Option<Value>>,
    turns: &mut u32,
) -> Result<Value, Stop>
    ensures { Gives (λ v. v) result env.new.items turns.new (run_expr scene.now expr.now (pixel env.old.items turns.old)) }
{
    match expr {
        TypedExpr::Literal(scalar) => Ok(Value::One(*scalar)),
        TypedExpr::Constant(number) => constant(alloc, scene, *number),
        TypedExpr::Variable(x) => variable(alloc, env, *x),
        TypedExpr::Unary(op, kind, operand) => {
            let value = eval_operand(alloc, operand.get(), scene, env, turns)?;
            unary_value(*op, *kind, &value)
        }
        TypedExpr::Chain(first, links) => {
            let value = eval_operand(alloc, first.get(), scene, env, turns)?;
            eval_links(alloc, links.as_slice(), value, scene, env, turns)
        }
        TypedExpr::Logic(logic, operands) => {
            let decider = decider_of(*logic);
            eval_logic(alloc, operands.as_slice(), decider, scene, env, turns)
        }
        TypedExpr::Path(inner, steps) => {
            let value = eval(alloc, inner.get(), scene, env, turns)?;
            eval_steps(alloc, steps.as_slice(), value, scene, env, turns)
        }
        TypedExpr::Size(inner, size) => {
            eval(alloc, inner.get(), scene, env, turns)?;
            sized_value(scene, *size)
        }
        TypedExpr::Call(call) => eval_call(alloc, call.get(), scene, env, turns),
    }
}

/// What an operand gives: the value of its expression, converted.
#[cycle(run)]
fn eval_operand(
    alloc: Global,
    operand: &Operand,
    scene: &Scene<'_>,
    env: &mut Vec<Option<Value>>,
    turns: &mut u32,
) -> Result<Value, Stop>
    ensures { Gives (λ v. v) result env.new.items turns.new (run_operand scene.now operand.now (pixel env.old.items turns.old)) }
{
    let value = eval(alloc, &operand.value, scene, env, turns)?;
    converted(operand.conversion, value)
}

#[cycle(run)]
fn eval_links(
    alloc: Global,
    links: &[TypedLink],
    first: Value,
    scene: &Scene<'_>,
    env: &mut Vec<Option<Value>>,
    turns: &mut u32,
) -> Result<Value, Stop>
    ensures { Gives (λ v. v) result env.new.items turns.new (linked (map (run_link scene.now) links.now) first (pixel env.old.items turns.old)) }
{
    let mut value = first;
    for link in links {
        value = eval_link(alloc, link, &value, scene, env, turns)?;
    }
    Ok(value)
}

#[cycle(run)]
fn eval_link(
    alloc: Global,
    link: &TypedLink,
    left: &Value,
    scene: &Scene<'_>,
    env: &mut Vec<Option<Value>>,
    turns: &mut u32,
) -> Result<Value, Stop>
    ensures { Gives (λ v. v) result env.new.items turns.new (run_link scene.now link.now left.now (pixel env.old.items turns.old)) }
{
    let right = eval_operand(alloc, &link.right, scene, env, turns)?;
    linked_value(link, left, &right)
}

// The operands of `&&` or `||` from the left, up to one that decides.
#[cycle(run)]
fn eval_logic(
    alloc: Global,
    operands: &[Operand],
    decider: bool,
    scene: &Scene<'_>,
    env: &mut Vec<Option<Value>>,
    turns: &mut u32,
) -> Result<Value, Stop>
    ensures { Gives (λ v. v) result env.new.items turns.new (decided decider (map (run_operand scene.now) operands.now) (pixel env.old.items turns.old)) }
{
    for operand in operands {
        let truth = eval_truth(alloc, operand, scene, env, turns)?;
        if truth == decider {
            return Ok(Value::One(Scalar::Bool(decider)));
        }
    }
    Ok(Value::One(Scalar::Bool(!decider)))
}

/// The truth that an operand gives.
#[cycle(run)]
fn eval_truth(
    alloc: Global,
    operand: &Operand,
    scene: &Scene<'_>,
    env: &mut Vec<Option<Value>>,
    turns: &mut u32,
) -> Result<bool, Stop>
    ensures { Gives (λ b. b) result env.new.items turns.new (go_on (run_operand scene.now operand.now (pixel env.old.items turns.old)) (λ (v : ValueForm). held (bool_in v) give)) }
{
    let value = eval_operand(alloc, operand, scene, env, turns)?;
    truth(&value)
}

// The steps into a value that was evaluated before, from the left.
#[cycle(run)]
fn eval_steps(
    alloc: Global,
    steps: &[TypedStep],
    whole: Value,
    scene: &Scene<'_>,
    env: &mut Vec<Option<Value>>,
    turns: &mut u32,
) -> Result<Value, Stop>
    ensures { Gives (λ v. v) result env.new.items turns.new (steps_run (map (run_step scene.now) steps.now) whole (pixel env.old.items turns.old)) }
{
    let mut value = whole;
    for step in steps {
        value = eval_step(alloc, step, &value, scene, env, turns)?;
    }
    Ok(value)
}

#[cycle(run)]
fn eval_step(
    alloc: Global,
    step: &TypedStep,
    whole: &Value,
    scene: &Scene<'_>,
    env: &mut Vec<Option<Value>>,
    turns: &mut u32,
) -> Result<Value, Stop>
    ensures { Gives (λ v. v) result env.new.items turns.new (go_on (run_step scene.now step.now (λ (env : Env). Some whole.now) (pixel env.old.items turns.old)) (λ (i : ℕ). held (part_of (Some whole.now) i) give)) }
{
    let number = eval_step_number(alloc, step, whole, scene, env, turns)?;
    part_value(alloc, whole, number)
}

#[cycle(run)]
fn eval_step_number(
    alloc: Global,
    step: &TypedStep,
    whole: &Value,
    scene: &Scene<'_>,
    env: &mut Vec<Option<Value>>,
    turns: &mut u32,
) -> Result<usize, Stop>
    ensures { Gives (λ i. i) result env.new.items turns.new (run_step scene.now step.now (λ (env : Env). Some whole.now) (pixel env.old.items turns.old)) }
{
    match step {
        TypedStep::Field(number) => field_in(whole, *number),
        TypedStep::Index(index, node) => {
            let index = eval(alloc, index, scene, env, turns)?;
            element(whole, &index, *node)
        }
    }
}

/// The path of a place, from the left.
#[cycle(run)]
fn eval_place(
    alloc: Global,
    place: &TypedPlace,
    scene: &Scene<'_>,
    env: &mut Vec<Option<Value>>,
    turns: &mut u32,
) -> Result<Path, Stop>
    ensures { Gives (λ path. path) result env.new.items turns.new ((run_place scene.now place.now).path (pixel env.old.items turns.old)) }
{
    if variable_of(env, place.variable).is_none() {
        return Err(Stop::Wrong);
    }
    eval_path(
        alloc,
        place.steps.as_slice(),
        place.variable,
        scene,
        env,
        turns,
    )
}

#[cycle(run)]
fn eval_path(
    alloc: Global,
    steps: &[TypedStep],
    x: u32,
    scene: &Scene<'_>,
    env: &mut Vec<Option<Value>>,
    turns: &mut u32,
) -> Result<Path, Stop>
    ensures { Gives (λ path. path) result env.new.items turns.new (path_run x (map (run_step scene.now) steps.now) [] (pixel env.old.items turns.old)) }
{
    let mut path = Path::new(alloc);
    for step in steps {
        let number = eval_place_step(alloc, step, path.as_slice(), x, scene, env, turns)?;
        path.push(number)?;
    }
    Ok(path)
}

#[cycle(run)]
fn eval_place_step(
    alloc: Global,
    step: &TypedStep,
    path: &[usize],
    x: u32,
    scene: &Scene<'_>,
    env: &mut Vec<Option<Value>>,
    turns: &mut u32,
) -> Result<usize, Stop>
    ensures { Gives (λ i. i) result env.new.items turns.new (run_step scene.now step.now (found x path.now) (pixel env.old.items turns.old)) }
{
    match step {
        TypedStep::Field(number) => found_field(env, x, path, *number),
        TypedStep::Index(index, node) => {
            let index = eval(alloc, index, scene, env, turns)?;
            found_element(env, x, path, &index, *node)
        }
    }
}

/// What a call gives: the arguments are evaluated, the function runs over them, and the outputs are put back.
#[cycle(run)]
fn eval_call(
    alloc: Global,
    call: &TypedCall,
    scene: &Scene<'_>,
    env: &mut Vec<Option<Value>>,
    turns: &mut u32,
) -> Result<Value, Stop>
    ensures { Gives (λ v. v) result env.new.items turns.new (run_call scene.now call.now (pixel env.old.items turns.old)) }
{
    let arguments = call.arguments.as_slice();
    let sending = eval_arguments(alloc, arguments, scene, env, turns)?;
    let (mut frame, paths) = sending.into_parts();
    let value = run_callee(alloc, call, scene, &mut frame, turns)?;
    bring_back(alloc, arguments, paths.as_slice(), &mut frame, env)?;
    Ok(value)
}

// The arguments from the left.
#[cycle(run)]
fn eval_arguments(
    alloc: Global,
    arguments: &[Argument],
    scene: &Scene<'_>,
    env: &mut Vec<Option<Value>>,
    turns: &mut u32,
) -> Result<Sending, Stop>
    ensures { Gives (λ s. s) result env.new.items turns.new (listed (map (pass_argument scene.now) arguments.now) (pixel env.old.items turns.old)) }
{
    let mut sending = Sending::new(alloc);
    for argument in arguments {
        let sent = eval_argument(alloc, argument, scene, env, turns)?;
        sending = sending.with(sent)?;
    }
    Ok(sending)
}

#[cycle(run)]
fn eval_argument(
    alloc: Global,
    argument: &Argument,
    scene: &Scene<'_>,
    env: &mut Vec<Option<Value>>,
    turns: &mut u32,
) -> Result<Sent, Stop>
    ensures { Gives passed result env.new.items turns.new (pass_argument scene.now argument.now (pixel env.old.items turns.old)) }
{
    match argument {
        Argument::Input(operand, _) => {
            let value = eval_operand(alloc, operand, scene, env, turns)?;
            Ok(Sent {
                value: Some(value),
                path: Path::new(alloc),
            })
        }
        Argument::Output(place, conversion, _) => {
            eval_output(alloc, place, *conversion, scene, env, turns)
        }
        Argument::Missing => Ok(Sent {
            value: None,
            path: Path::new(alloc),
        }),
    }
}

// The place of an output is evaluated and checked, and the value there is copied and converted.
#[cycle(run)]
fn eval_output(
    alloc: Global,
    place: &TypedPlace,
    conversion: Conversion,
    scene: &Scene<'_>,
    env: &mut Vec<Option<Value>>,
    turns: &mut u32,
) -> Result<Sent, Stop>
    ensures { Gives passed result env.new.items turns.new (pass_output (run_place scene.now place.now) conversion (pixel env.old.items turns.old)) }
{
    let path = eval_place(alloc, place, scene, env, turns)?;
    output_at(alloc, env, place.variable, path, conversion)
}

// What is called runs over the arguments, and leaves its variables in their place.
#[cycle(run)]
fn run_callee(
    alloc: Global,
    call: &TypedCall,
    scene: &Scene<'_>,
    frame: &mut Vec<Option<Value>>,
    turns: &mut u32,
) -> Result<Value, Stop>
    ensures { Comes result frame.new.items turns.new (comes_of (callee_of (setting scene.now) call.now.callee call.now.node) (map (size_in scene.now.opens) call.now.sizes) frame.old.items turns.old) }
{
    let opens = sizes_in(alloc, scene.opens(), call.sizes.as_slice())?;
    match call.callee {
        Callee::Program(number) => {
            fill_defaults(alloc, number, scene, frame)?;
            run_function(alloc, number, opens.as_slice(), scene, frame, turns)
        }
        Callee::Library(id) => {
            called_library(alloc, id, call.node, opens.as_slice(), scene, frame)
        }
    }
}

/// Runs a function over its arguments. It leaves its variables in their place.
#[cycle(run)]
pub fn run_function(
    alloc: Global,
    number: u32,
    opens: &[u32],
    scene: &Scene<'_>,
    frame: &mut Vec<Option<Value>>,
    turns: &mut u32,
) -> Result<Value, Stop>
    ensures { Comes result frame.new.items turns.new (function_at (slice_get (setting scene.now).functions number) opens.now frame.old.items turns.old) }
{
    let number = number as usize;
    if number >= scene.functions().len() {
        return Err(Stop::Wrong);
    }
    let function = &scene.functions()[number];
    begin(function, opens, scene.structs(), frame)?;
    let inner = (&*scene).within(number, &*opens);
    let end = exec(alloc, &function.body, &inner, frame, turns)?;
    ended(alloc, scene.structs(), &function.result, end)
}

/// The value of an initialiser.
#[cycle(run)]
pub fn eval_initialiser(
    alloc: Global,
    initialiser: &Initialiser,
    scene: &Scene<'_>,
    env: &mut Vec<Option<Value>>,
    turns: &mut u32,
) -> Result<Value, Stop>
    ensures { Gives (λ v. v) result env.new.items turns.new (run_initialiser scene.now initialiser.now (pixel env.old.items turns.old)) }
{
    match initialiser {
        Initialiser::Value(operand) => eval_operand(alloc, operand, scene, env, turns),
        Initialiser::Elements(_, parts) => {
            let values = eval_parts(alloc, parts.as_slice(), scene, env, turns)?;
            Ok(Value::List(values))
        }
        Initialiser::Fields(_, parts) => {
            let values = eval_parts(alloc, parts.as_slice(), scene, env, turns)?;
            Ok(Value::Fields(values))
        }
    }
}

// The elements of a brace list from the left.
#[cycle(run)]
fn eval_parts(
    alloc: Global,
    parts: &[Initialiser],
    scene: &Scene<'_>,
    env: &mut Vec<Option<Value>>,
    turns: &mut u32,
) -> Result<Items<Value>, Stop>
    ensures { Gives (λ vs. vs) result env.new.items turns.new (listed (map (run_initialiser scene.now) parts.now) (pixel env.old.items turns.old)) }
{
    let mut values = Items::new(alloc);
    for part in parts {
        let value = eval_initialiser(alloc, part, scene, env, turns)?;
        values.push(value)?;
    }
    Ok(values)
}

/// What a statement does, and how it ends.
#[cycle(run)]
pub fn exec(
    alloc: Global,
    statement: &TypedStatement,
    scene: &Scene<'_>,
    env: &mut Vec<Option<Value>>,
    turns: &mut u32,
) -> Result<End, Stop>
    ensures { Gives seen result env.new.items turns.new (run_statement scene.now statement.now (pixel env.old.items turns.old)) }
{
    match statement {
        TypedStatement::Empty => Ok(End::Normal),
        TypedStatement::Block(parts) => exec_all(alloc, parts.as_slice(), scene, env, turns),
        TypedStatement::Declare(declaration) => {
            exec_declaration(alloc, declaration.get(), scene, env, turns)?;
            Ok(End::Normal)
        }
        TypedStatement::Assign(assignment) => {
            exec_assignment(alloc, assignment.get(), scene, env, turns)?;
            Ok(End::Normal)
        }
        TypedStatement::Call(call) => {
            eval_call(alloc, call.get(), scene, env, turns)?;
            Ok(End::Normal)
        }
        TypedStatement::If(arms, otherwise) => {
            exec_if(alloc, arms.as_slice(), otherwise, scene, env, turns)
        }
        TypedStatement::While(test, body, node) => {
            exec_while(alloc, test.get(), body.get(), *node, scene, env, turns)
        }
        TypedStatement::For(first, test, next, body, node) => {
            exec_start(alloc, first.get(), scene, env, turns)?;
            exec_for(
                alloc,
                test.get(),
                next.get(),
                body.get(),
                *node,
                scene,
                env,
                turns,
            )
        }
        TypedStatement::Return(operand) => exec_return(alloc, operand, scene, env, turns),
        TypedStatement::Print(items) => {
            exec_print(alloc, items.as_slice(), scene, env, turns)?;
            Ok(End::Normal)
        }
    }
}

// Statements one after another, up to one that leaves the function.
#[cycle(run)]
fn exec_all(
    alloc: Global,
    statements: &[TypedStatement],
    scene: &Scene<'_>,
    env: &mut Vec<Option<Value>>,
    turns: &mut u32,
) -> Result<End, Stop>
    ensures { Gives seen result env.new.items turns.new (sequence (map (run_statement scene.now) statements.now) (pixel env.old.items turns.old)) }
{
    for statement in statements {
        let end = exec(alloc, statement, scene, env, turns)?;
        match end {
            End::Left(value) => return Ok(End::Left(value)),
            End::Normal => {}
        }
    }
    Ok(End::Normal)
}

// The body of the first arm whose test is true, else what stands after the last `else`.
#[cycle(run)]
fn exec_if(
    alloc: Global,
    arms: &[Arm],
    otherwise: &Option<Boxed<TypedStatement>>,
    scene: &Scene<'_>,
    env: &mut Vec<Option<Value>>,
    turns: &mut u32,
) -> Result<End, Stop>
    ensures { Gives seen result env.new.items turns.new (arms_run (map (run_arm scene.now) arms.now) (otherwise_run (statement_of scene.now otherwise.now)) (pixel env.old.items turns.old)) }
{
    for arm in arms {
        if eval_truth(alloc, &arm.test, scene, env, turns)? {
            return exec(alloc, arm.body.get(), scene, env, turns);
        }
    }
    match otherwise {
        Some(statement) => exec(alloc, statement.get(), scene, env, turns),
        None => Ok(End::Normal),
    }
}

// A loop: its test decides whether it takes a turn. It has as many rounds as turns and one more.
#[cycle(run)]
fn exec_while(
    alloc: Global,
    test: &Operand,
    body: &TypedStatement,
    node: Node,
    scene: &Scene<'_>,
    env: &mut Vec<Option<Value>>,
    turns: &mut u32,
) -> Result<End, Stop>
    ensures { Gives seen result env.new.items turns.new (loop_run node (run_operand scene.now test.now) (run_statement scene.now body.now) (pixel env.old.items turns.old)) }
{
    let mut rounds = *turns;
    'each: loop {
        if !eval_truth(alloc, test, scene, env, turns)? {
            return Ok(End::Normal);
        }
        if *turns == 0 {
            return Err(Stop::Trap(TrapKind::Turns, node));
        }
        *turns -= 1;
        let end = exec(alloc, body, scene, env, turns)?;
        match end {
            End::Left(value) => return Ok(End::Left(value)),
            End::Normal => {}
        }
        if rounds == 0 {
            return Ok(End::Normal);
        }
        rounds -= 1;
    }
}

// The loop of a `for`: after each turn of the body there is an assignment.
#[cycle(run)]
fn exec_for(
    alloc: Global,
    test: &Operand,
    next: &Assignment,
    body: &TypedStatement,
    node: Node,
    scene: &Scene<'_>,
    env: &mut Vec<Option<Value>>,
    turns: &mut u32,
) -> Result<End, Stop>
    ensures { Gives seen result env.new.items turns.new (loop_run node (run_operand scene.now test.now) (run_round scene.now body.now next.now) (pixel env.old.items turns.old)) }
{
    let mut rounds = *turns;
    'each: loop {
        if !eval_truth(alloc, test, scene, env, turns)? {
            return Ok(End::Normal);
        }
        if *turns == 0 {
            return Err(Stop::Trap(TrapKind::Turns, node));
        }
        *turns -= 1;
        let end = exec_round(alloc, body, next, scene, env, turns)?;
        match end {
            End::Left(value) => return Ok(End::Left(value)),
            End::Normal => {}
        }
        if rounds == 0 {
            return Ok(End::Normal);
        }
        rounds -= 1;
    }
}

#[cycle(run)]
fn exec_round(
    alloc: Global,
    body: &TypedStatement,
    next: &Assignment,
    scene: &Scene<'_>,
    env: &mut Vec<Option<Value>>,
    turns: &mut u32,
) -> Result<End, Stop>
    ensures { Gives seen result env.new.items turns.new (run_round scene.now body.now next.now (pixel env.old.items turns.old)) }
{
    let end = exec(alloc, body, scene, env, turns)?;
    match end {
        End::Left(value) => return Ok(End::Left(value)),
        End::Normal => {}
    }
    exec_assignment(alloc, next, scene, env, turns)?;
    Ok(End::Normal)
}

// How a `for` begins.
#[cycle(run)]
fn exec_start(
    alloc: Global,
    start: &ForStart,
    scene: &Scene<'_>,
    env: &mut Vec<Option<Value>>,
    turns: &mut u32,
) -> Result<(), Stop>
    ensures { Gives (λ _. Normal) result env.new.items turns.new (run_start scene.now start.now (pixel env.old.items turns.old)) }
{
    match start {
        ForStart::Declare(declaration) => exec_declaration(alloc, declaration, scene, env, turns),
        ForStart::Assign(assignment) => exec_assignment(alloc, assignment, scene, env, turns),
    }
}

// The first value is evaluated, and then the variable is declared.
#[cycle(run)]
fn exec_declaration(
    alloc: Global,
    declaration: &Declaration,
    scene: &Scene<'_>,
    env: &mut Vec<Option<Value>>,
    turns: &mut u32,
) -> Result<(), Stop>
    ensures { Gives (λ _. Normal) result env.new.items turns.new (run_declaration scene.now declaration.now (pixel env.old.items turns.old)) }
{
    let value = eval_first(alloc, declaration, scene, env, turns)?;
    declare(alloc, declaration, value, scene, env)
}

#[cycle(run)]
fn eval_first(
    alloc: Global,
    declaration: &Declaration,
    scene: &Scene<'_>,
    env: &mut Vec<Option<Value>>,
    turns: &mut u32,
) -> Result<Value, Stop>
    ensures { Gives (λ v. v) result env.new.items turns.new (first_value scene.now declaration.now.shape declaration.now.first (pixel env.old.items turns.old)) }
{
    match &declaration.first {
        Some(initialiser) => eval_initialiser(alloc, initialiser, scene, env, turns),
        None => zero(alloc, &declaration.shape, scene),
    }
}

// The indices of the place, then the value, and then it is stored.
#[cycle(run)]
fn exec_assignment(
    alloc: Global,
    assignment: &Assignment,
    scene: &Scene<'_>,
    env: &mut Vec<Option<Value>>,
    turns: &mut u32,
) -> Result<(), Stop>
    ensures { Gives (λ _. Normal) result env.new.items turns.new (run_assignment scene.now assignment.now (pixel env.old.items turns.old)) }
{
    let path = eval_place(alloc, &assignment.place, scene, env, turns)?;
    let value = eval_operand(alloc, &assignment.value, scene, env, turns)?;
    assign(
        alloc,
        env,
        assignment.place.variable,
        path.as_slice(),
        value,
    )
}

#[cycle(run)]
fn exec_return(
    alloc: Global,
    operand: &Option<Boxed<Operand>>,
    scene: &Scene<'_>,
    env: &mut Vec<Option<Value>>,
    turns: &mut u32,
) -> Result<End, Stop>
    ensures { Gives seen result env.new.items turns.new (go_on (left_value scene.now operand.now (pixel env.old.items turns.old)) leave) }
{
    match operand {
        Some(operand) => {
            let value = eval_operand(alloc, operand.get(), scene, env, turns)?;
            Ok(End::Left(value))
        }
        None => Ok(End::Left(Value::Fields(Items::new(alloc)))),
    }
}

// What is printed is evaluated from the left.
#[cycle(run)]
fn exec_print(
    alloc: Global,
    items: &[PrintItem],
    scene: &Scene<'_>,
    env: &mut Vec<Option<Value>>,
    turns: &mut u32,
) -> Result<(), Stop>
    ensures { Gives (λ _. Normal) result env.new.items turns.new (run_items scene.now items.now (pixel env.old.items turns.old)) }
{
    for item in items {
        exec_item(alloc, item, scene, env, turns)?;
    }
    Ok(())
}

#[cycle(run)]
fn exec_item(
    alloc: Global,
    item: &PrintItem,
    scene: &Scene<'_>,
    env: &mut Vec<Option<Value>>,
    turns: &mut u32,
) -> Result<(), Stop>
    ensures { Gives (λ _. Normal) result env.new.items turns.new (run_item scene.now item.now (pixel env.old.items turns.old)) }
{
    match item {
        PrintItem::Text(_) => Ok(()),
        PrintItem::Value(expr) => {
            eval(alloc, expr, scene, env, turns)?;
            Ok(())
        }
    }
}
