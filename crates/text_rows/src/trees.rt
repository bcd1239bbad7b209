//! Trees with their tokens, and the units of a program.

ghost use Rattle.std.specs.Prelude.{◌≡◌, length, IfOk};

use ctl_base::{ByteText, Memory, Node, TextArg};
use ctl_tree::{
    Definition, Expr, FieldAccess, Import, Index, Literal, LiteralValue, Module, Path,
    QualifiedName, Sign, Step, Token, TokenKind, TokenList, Unit, Units,
};
use sqlite_items::{Boxed, Items};
use std::alloc::Global;

#[test]
fn tokens_stand_in_the_order_in_which_they_came(rt: HostRuntime) -> Result<(), Memory> {
    let mut tokens = TokenList::new(rt.alloc());
    for at in 0..3u32 {
        let token = Token {
            kind: TokenKind::Sign(Sign::Semicolon),
            at,
            len: 1,
            line: 1,
        };
        tokens.push(token)?;
    }
    assert_eq!(rt; tokens.as_slice().len(), 3);
    for (token, at) in tokens.as_slice().iter().zip(0..3u32) {
        assert_eq!(rt; token.at, at);
    }
    let again = TokenList::from_vec(tokens.into_vec());
    assert_eq!(rt; again.as_slice().len(), 3);
    Ok(())
}

fn semicolon(line: u32) -> Token {
    Token {
        kind: TokenKind::Sign(Sign::Semicolon),
        at: 0,
        len: 1,
        line,
    }
}

/// A module of one import, whose own token is the second of two.
fn importer(alloc: Global, file: &str, line: u32) -> Result<Unit, Memory>
    ensures { IfOk result (λ unit. length unit.tokens ≡ 2) }
{
    let mut tokens = TokenList::new(alloc);
    tokens.push(semicolon(1))?;
    tokens.push(semicolon(line))?;
    let mut imports: Items<Import> = Items::new(alloc);
    let import = Import {
        name: ByteText::new(alloc, file.as_bytes())?,
        token: 1,
    };
    imports.push(import)?;
    let definitions: Items<Definition> = Items::new(alloc);
    let module = Module {
        imports,
        definitions,
    };
    Ok(Unit::new(TextArg::new(alloc, file)?, tokens, module))
}

#[test]
fn units_stand_in_load_order(rt: HostRuntime) -> Result<(), Memory> {
    let alloc = rt.alloc();
    let mut units = Units::new(alloc);
    units.push(importer(alloc, "first.ctl", 3)?)?;
    units.push(importer(alloc, "root.ctl", 7)?)?;
    assert_eq!(rt; units.len(), 2);
    let root = units.get(1).unwrap();
    assert_eq!(rt; root.file().as_str(), "root.ctl");
    assert_eq!(rt; root.tokens().len(), 2);
    assert_eq!(rt; root.module().imports.len(), 1);
    assert!(rt; units.get(2).is_none());
    let node = Node {
        module: 1,
        token: 1,
    };
    assert_eq!(rt; units.line_of(node), 7);
    let behind = Node {
        module: 1,
        token: 2,
    };
    assert_eq!(rt; units.line_of(behind), 0);
    assert_eq!(rt; units.as_slice().len(), 2);
    Ok(())
}

fn name(alloc: Global, token: u32) -> Result<Expr, Memory> {
    Ok(Expr::Name(QualifiedName {
        is_global: false,
        token,
        spaces: Items::new(alloc),
        name: ByteText::new(alloc, b"a")?,
    }))
}

fn whole(value: u32, token: u32) -> Expr {
    Expr::Literal(Literal {
        value: LiteralValue::Whole(value),
        token,
    })
}

/// `a[0].b`
fn path(alloc: Global) -> Result<Expr, Memory> {
    let mut steps = Items::new(alloc);
    steps.push(Step::Index(Index {
        index: whole(0, 2),
        token: 1,
    }))?;
    steps.push(Step::Field(FieldAccess {
        name: ByteText::new(alloc, b"b")?,
        token: 5,
    }))?;
    Ok(Expr::Path(Path {
        root: Boxed::new(alloc, name(alloc, 0)?)?,
        steps,
    }))
}

#[test]
fn a_path_is_told_by_its_last_step(rt: HostRuntime) -> Result<(), Memory> {
    assert_eq!(rt; name(rt.alloc(), 7)?.token(), 7);
    assert_eq!(rt; whole(3, 4).token(), 4);
    assert_eq!(rt; path(rt.alloc())?.token(), 5);
    Ok(())
}
