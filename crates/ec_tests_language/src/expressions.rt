//! Statements behind declarations of objects of each type, and what comes of each. Where one breaks a rule, the least
//! one and the token of the statement at which it is told, as `23 at 1`. Else of an expression its type, with
//! `saturating` before it where a result out of range becomes an end of the range, and behind it the types to which
//! operands are converted, `-` for one that is taken as it is; of a declaration the number of its values; and of another
//! statement `fine`.
use crate::rows::{Row, Shown, Told, compare};
use ec_check::CheckStop;
use ec_core::{CType, Expr, Node, Program, Stmt, StmtKind};
use ec_fx::FxKind;
use ec_space::SpaceId;
use std::alloc::{AllocError, Global};

/// What stands before a statement. The name x means nothing.
static PRELUDE: &str = "#include <iohw.h>
char c; unsigned char b; int a; unsigned int u; long l; unsigned long m;
short _Fract j; _Fract f; _Sat _Fract t; unsigned _Fract w; _Accum s;
int *p; const int *q; __data int *d; const __flash int *z; char *n;
int v[3]; const int k = 1; const int y[3] = {1, 2, 3}; register _R6 int r;
struct two { int m; int n; }; struct two e; struct two *o;
int g(int i, char j) { return i + j; }
void h(void) {}
int main(void) {";

/// The number of tokens in it.
const FIRST: u32 = 144;

// Each row is a statement without its `;`, and what comes of it.

/// Arithmetic, and the comma.
static ARITHMETIC: [Row; 44] = [
    ("a + c", "int(-, int)"),
    ("c + c", "int(int, int)"),
    ("b + l", "long(long, -)"),
    ("u + l", "long(long, -)"),
    ("a - u", "unsigned(unsigned, -)"),
    ("k - r", "int"),
    ("a % l", "long(long, -)"),
    ("l & m", "unsigned long(unsigned long, -)"),
    ("a ^ c", "int(-, int)"),
    ("c << l", "int(int, -)"),
    ("a << c", "int(-, int)"),
    ("c * b", "int"),
    ("c * a", "23 at 1"),
    ("c + f", "fract"),
    ("f / a", "fract"),
    ("j * c", "short fract"),
    ("s << a", "accum"),
    ("w + s", "accum(fract, -)"),
    ("t + w", "saturating sat fract(-, fract)"),
    ("a % s", "23 at 1"),
    ("f & a", "23 at 1"),
    ("a << s", "23 at 1"),
    ("p + a", "pointer"),
    ("a + p", "pointer"),
    ("v + c", "pointer"),
    ("a + z", "flash pointer"),
    ("p - a", "pointer"),
    ("d - a", "data pointer"),
    ("p - p", "int"),
    ("p - q", "int"),
    ("p + p", "23 at 1"),
    ("p + f", "23 at 1"),
    ("a - p", "23 at 1"),
    ("p - n", "23 at 1"),
    ("d - z", "32 at 1"),
    ("p / a", "23 at 1"),
    ("p | a", "23 at 1"),
    ("p >> a", "23 at 1"),
    ("e + a", "23 at 1"),
    ("1 + h()", "40 at 2"),
    ("(char)1 * x", "20 at 5"),
    ("1.5k * x", "23 at 1"),
    ("1.5k % x", "23 at 1"),
    ("a, l", "long"),
];

/// Comparisons, choices and conditions.
static COMPARISONS: [Row; 36] = [
    ("f < a", "int"),
    ("f <= a", "int"),
    ("u < a", "int(-, unsigned)"),
    ("m > c", "int(-, unsigned long)"),
    ("0 == 0", "int"),
    ("p == 0", "int"),
    ("0 != p", "int"),
    ("v == p", "int"),
    ("p >= q", "int"),
    ("d < p", "int(pointer, -)"),
    ("p != z", "int(-, pointer to const)"),
    ("p < 0", "24 at 1"),
    ("p == 5", "24 at 1"),
    ("p == n", "24 at 1"),
    ("e == e", "24 at 1"),
    ("p == x", "20 at 2"),
    ("f || p", "int"),
    ("e && a", "25 at 1"),
    ("a && e", "25 at 1"),
    ("a ? c : c", "int(int, int)"),
    ("a ? c : f", "fract(fract, -)"),
    ("a ? p : 0", "pointer"),
    ("a ? 0 : p", "pointer"),
    ("a ? d : p", "pointer(pointer, -)"),
    (
        "a ? z : p",
        "pointer to const(pointer to const, pointer to const)",
    ),
    ("a ? h() : h()", "void"),
    ("a ? p : n", "24 at 1"),
    ("a ? e : e", "24 at 1"),
    ("a ? a : h()", "24 at 1"),
    ("a ? d : z", "32 at 1"),
    ("a ? x : p", "20 at 2"),
    ("e ? a : a", "25 at 1"),
    ("h() ? 1 : 2", "40 at 0"),
    ("if (v) a = 1", "fine"),
    ("if (x) a = 1", "20 at 2"),
    ("while (s) break", "fine"),
];

/// Prefix operators, steps, casts and sizes of types.
static PREFIXES: [Row; 42] = [
    ("+c", "int(int, -)"),
    ("+l", "long"),
    ("-c", "int(int, -)"),
    ("-f", "fract"),
    ("~b", "int(int, -)"),
    ("!c", "int"),
    ("!p", "int"),
    ("!v", "int"),
    ("*v", "int"),
    ("&a", "pointer"),
    ("&k", "pointer to const"),
    ("&v", "pointer to array"),
    ("&e", "pointer to struct"),
    ("f++", "fract"),
    ("p++", "pointer"),
    ("r++", "int"),
    ("~s", "23 at 0"),
    ("-p", "23 at 0"),
    ("+p", "23 at 0"),
    ("e++", "23 at 1"),
    ("5++", "26 at 1"),
    ("v++", "26 at 1"),
    ("k--", "27 at 1"),
    ("&(a + 1)", "26 at 0"),
    ("*x", "20 at 1"),
    ("!h()", "40 at 1"),
    ("(int)a", "int"),
    ("(char)s", "char(char, -)"),
    ("(int *)0", "pointer"),
    ("(__data int *)q", "data pointer(data pointer, -)"),
    ("(int)p", "31 at 0"),
    ("(void)a", "31 at 0"),
    ("(struct two)e", "31 at 0"),
    ("(__data int *)z", "31 at 0"),
    ("sizeof(void)", "7 at 2"),
    ("sizeof(struct t)", "10 at 3"),
    (
        "\n#pragma STDC FX_FRACT_OVERFLOW SAT\n-f",
        "saturating fract",
    ),
    ("\n#pragma STDC FX_FRACT_OVERFLOW SAT\n-s", "accum"),
    (
        "\n#pragma STDC FX_FRACT_OVERFLOW SAT\na ? a : f",
        "saturating fract(fract, -)",
    ),
    (
        "\n#pragma STDC FX_FRACT_OVERFLOW SAT\nf += a",
        "saturating fract",
    ),
    (
        "\n#pragma STDC FX_ACCUM_OVERFLOW SAT\n-s",
        "saturating accum",
    ),
    ("(_Sat _Fract)s", "saturating sat fract(sat fract, -)"),
];

/// Assignments.
static ASSIGNMENTS: [Row; 29] = [
    ("c = c", "char"),
    ("c = l", "char(-, char)"),
    ("l = f", "long(-, long)"),
    ("p = 0", "pointer"),
    ("p = d", "pointer(-, pointer)"),
    ("q = z", "pointer to const(-, pointer to const)"),
    ("v = p", "26 at 1"),
    ("y = p", "26 at 1"),
    ("e = e", "26 at 1"),
    ("k = p", "27 at 1"),
    ("p = a", "28 at 1"),
    ("p = n", "28 at 1"),
    ("p = 5", "28 at 1"),
    ("d = z", "29 at 1"),
    ("d = q", "29 at 1"),
    ("z = p", "29 at 1"),
    ("p = q", "30 at 1"),
    ("p = z", "30 at 1"),
    ("a = x", "20 at 2"),
    ("c += l", "char"),
    ("p -= a", "pointer"),
    ("s <<= a", "accum"),
    ("5 += a", "26 at 1"),
    ("k += a", "27 at 1"),
    ("a += p", "28 at 1"),
    ("p -= p", "28 at 1"),
    ("p += p", "23 at 1"),
    ("c *= a", "23 at 1"),
    ("a &= f", "23 at 1"),
];

/// Calls, subscripts, members and operations on ports.
static PARTS: [Row; 27] = [
    ("(g)(1, 2)", "int"),
    ("g(c, l)", "int"),
    ("h()", "void"),
    ("h(1)", "22 at 1"),
    ("g(1, p)", "28 at 4"),
    ("g(p, x)", "28 at 2"),
    ("g(e, 1)", "28 at 2"),
    ("v[c]", "int"),
    ("e.n", "int"),
    ("o->n", "int"),
    ("1[v]", "34 at 1"),
    ("e->n", "34 at 1"),
    ("o.n", "34 at 1"),
    ("p->n", "34 at 1"),
    ("o->z", "35 at 2"),
    ("iord(LED)", "unsigned"),
    ("iordl(LED)", "unsigned long"),
    ("iordl(L)", "unsigned long"),
    ("iowrbuf(B, 0, 1)", "void"),
    ("ioxorbufl(L, 0, 1)", "void"),
    ("iogroup_acquire(ADC)", "void"),
    ("iord(LED, 1)", "36 at 0"),
    ("iowr(LED, p)", "28 at 4"),
    ("ioxor(L, 1)", "37 at 0"),
    ("iogroup_release(ADC, 1)", "36 at 0"),
    ("iogroup_map(ADC)", "36 at 0"),
    ("iogroup_map(ADC, ADC)", "36 at 0"),
];

/// Dynamic groups.
static BINDINGS: [Row; 22] = [
    ("iogroup_map(LINE, ADC)", "void"),
    ("iogroup_map(LINE, TWI)", "void"),
    ("{ int ADC = 1; iogroup_map(LINE, ADC); ADC++; }", "fine"),
    ("{ char LINE = 0; iogroup_map(LINE, TWI); }", "fine"),
    ("iogroup_acquire(LINE)", "void"),
    ("iogroup_release(LINE)", "void"),
    ("iord(DATA)", "unsigned"),
    ("iowr(DATA, a)", "void"),
    ("iogroup_map(LINE, (ADC))", "36 at 0"),
    ("iogroup_map(LINE, SPI)", "36 at 0"),
    ("iogroup_map(LINE, LINE)", "36 at 0"),
    ("iogroup_map(LINE, LED)", "36 at 0"),
    ("iogroup_map(LINE, x)", "36 at 0"),
    ("iogroup_map(LINE, ADC + 1)", "36 at 0"),
    ("iogroup_map(LINE, 0)", "36 at 0"),
    ("iogroup_map(LINE)", "36 at 0"),
    ("iogroup_map(LINE, ADC, TWI)", "36 at 0"),
    ("iogroup_map(x, ADC)", "36 at 0"),
    ("iogroup_acquire(LINE, 1)", "36 at 0"),
    ("iogroup_release(LINE, ADC)", "36 at 0"),
    ("iord(LINE)", "36 at 0"),
    ("a = iogroup_map(LINE, ADC)", "40 at 2"),
];

/// Locals: initialisers and sizes.
static LOCALS: [Row; 27] = [
    ("int i = 1", "values: 1"),
    ("int i = {1}", "14 at 3"),
    ("int i = x", "20 at 3"),
    ("int i[3]", "values: 0"),
    ("int i[3] = {1, 2}", "values: 3"),
    ("int i[3] = {1, 2, 3}", "values: 3"),
    ("int i[] = {1, 2}", "values: 2"),
    ("int i[3] = 1", "14 at 6"),
    ("int i[3] = {1, 2, 3, 4}", "14 at 6"),
    ("int i[3] = {1, {2}}", "14 at 9"),
    ("int i[3] = {1, p}", "28 at 9"),
    ("int *i = 0", "values: 1"),
    ("int *i = v", "values: 1"),
    ("int *i = 1", "28 at 4"),
    ("int *i = z", "30 at 4"),
    ("__data int *i = p", "29 at 5"),
    ("const __flash int *i = v", "29 at 6"),
    ("char i[2 + 1] = {0}", "values: 3"),
    ("char i[sizeof(long)] = {0}", "values: 4"),
    ("char i[(char)300] = {0}", "values: 44"),
    ("char i[32767] = {0}", "values: 32767"),
    ("char i[32768]", "8 at 2"),
    ("int i[x]", "8 at 2"),
    ("int i[1 / 0]", "8 at 2"),
    ("int i[1.5k]", "8 at 2"),
    ("int i[1 % 1.0k]", "23 at 4"),
    ("struct two i[2] = {{1}, {2, 3}}", "values: 4"),
];

// ---- in words

fn integer_name(signed: bool, bytes: u8) -> &'static str {
    match (signed, bytes) {
        (true, 1) => "char",
        (true, 2) => "int",
        (true, _) => "long",
        (false, 1) => "unsigned char",
        (false, 2) => "unsigned",
        (false, _) => "unsigned long",
    }
}

fn fixed_name(kind: FxKind, sat: bool) -> &'static str {
    match (kind, sat) {
        (FxKind::ShortFract, false) => "short fract",
        (FxKind::Fract, false) => "fract",
        (FxKind::Fract, true) => "sat fract",
        (FxKind::Accum, false) => "accum",
        _ => "another fixed-point type",
    }
}

fn pointer_name(space: SpaceId, konst: bool, to: &CType) -> &'static str {
    match (space, to) {
        (SpaceId::Flash, _) => "flash pointer",
        (SpaceId::FarFlash, _) => "far flash pointer",
        (SpaceId::Data, _) => "data pointer",
        (SpaceId::Generic, CType::Array { .. }) => "pointer to array",
        (SpaceId::Generic, CType::Struct { .. }) => "pointer to struct",
        (SpaceId::Generic, _) => { if konst { "pointer to const" } else { "pointer" } }
    }
}

fn name_of(ty: &CType) -> &'static str {
    match ty {
        CType::Void => "void",
        CType::Int { signed, bytes } => integer_name(*signed, *bytes),
        CType::Fx { kind, sat } => fixed_name(*kind, *sat),
        CType::Ptr { space, konst, to } => pointer_name(*space, *konst, to),
        CType::Array { .. } => "array",
        CType::Struct { .. } => "struct",
    }
}

/// The type that an expression converts to.
fn conversion(e: &Expr) -> Option<&'static str> {
    match e.node {
        Node::Convert(_) => Some(name_of(&e.ty)),
        _ => None,
    }
}

fn conversions(e: &Expr) -> (Option<&'static str>, Option<&'static str>) {
    match &e.node {
        Node::Binary(_, a, b) | Node::Cond(_, a, b) => (conversion(a), conversion(b)),
        Node::Unary(_, a) | Node::Not(a) => (conversion(a), None),
        Node::Assign(_, b) | Node::Compound(_, _, _, b) => (None, conversion(b)),
        _ => (conversion(e), None),
    }
}

fn expression(alloc: Global, e: &Expr) -> Told {
    let name = name_of(&e.ty);
    let saturating = if e.mode.saturate { "saturating " } else { "" };
    match conversions(e) {
        (None, None) => format!(in alloc; "{saturating}{name}"),
        (left, right) => {
            let left = left.unwrap_or("-");
            let right = right.unwrap_or("-");
            format!(in alloc; "{saturating}{name}({left}, {right})")
        }
    }
}

fn of_statement(alloc: Global, s: &Stmt) -> Told {
    match &s.kind {
        StmtKind::Do1(e) => expression(alloc, e),
        StmtKind::Local(_, values) => {
            let count = values.len();
            format!(in alloc; "values: {count}")
        }
        _ => String::from_str(alloc, "fine"),
    }
}

/// The first statement of `main`.
fn first(program: &Program) -> Option<&Stmt> {
    let main = program.funcs.get(program.main as usize)?;
    match &main.body.kind {
        StmtKind::Block(items) => items.get(0),
        _ => None,
    }
}

/// What comes of the statement of a program.
pub fn of_program(alloc: Global, program: &Program) -> Told {
    match first(program) {
        Some(s) => of_statement(alloc, s),
        None => Err(AllocError),
    }
}

/// What comes of a statement that breaks a rule.
pub fn of_stop(alloc: Global, stop: &CheckStop) -> Told {
    match stop {
        CheckStop::Constraint { token, rule, .. } => {
            let at = token.saturating_sub(FIRST);
            format!(in alloc; "{rule} at {at}")
        }
        _ => Err(AllocError),
    }
}

/// The text of the program with a statement.
pub fn text(alloc: Global, statement: &str) -> Told {
    format!(in alloc; "{PRELUDE}{statement};return 0;}}")
}

#[test]
fn arithmetic(rt: HostRuntime) {
    compare(&rt, rt.alloc(), Shown::Statement, &ARITHMETIC);
}

#[test]
fn comparisons(rt: HostRuntime) {
    compare(&rt, rt.alloc(), Shown::Statement, &COMPARISONS);
}

#[test]
fn prefixes(rt: HostRuntime) {
    compare(&rt, rt.alloc(), Shown::Statement, &PREFIXES);
}

#[test]
fn assignments(rt: HostRuntime) {
    compare(&rt, rt.alloc(), Shown::Statement, &ASSIGNMENTS);
}

#[test]
fn calls_parts_and_ports(rt: HostRuntime) {
    compare(&rt, rt.alloc(), Shown::Statement, &PARTS);
}

#[test]
fn bindings(rt: HostRuntime) {
    compare(&rt, rt.alloc(), Shown::Statement, &BINDINGS);
}

#[test]
fn locals(rt: HostRuntime) {
    compare(&rt, rt.alloc(), Shown::Statement, &LOCALS);
}
