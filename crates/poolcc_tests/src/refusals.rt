// Texts that are refused, and texts that are near to that.

use crate::commands::{EXEC, NONE, command, first_wrong};
use pcc_words::Status;
use std::alloc::{AllocError, Global};

const REFUSALS: [&str; 26] = [
    " => 241: refused T01 at 1:1",
    "// none\n => 241: refused T01 at 2:1",
    "int main(void) { return 0x; } => 241: refused BadLiteral at 1:25",
    "int main(void) { return 08; } => 241: refused BadLiteral at 1:25",
    "int main(void) {\n  ` } => 241: refused BadByte at 2:3",
    "int main(void) { return 0xE+1; } => 241: refused BadLiteral at 1:25",
    "int main(void) { return '\\400'; } => 241: refused BadLiteral at 1:25",
    "int main(void) { } \"a\n\" => 241: refused Unclosed at 1:20",
    "int main(void) {\n} /* @\n* => 241: refused Unclosed at 2:3",
    "/**/\n \t# include <stdint.h>\n@ => 241: refused BadDirective at 2:3",
    "int main(void) { return --5; } => 241: refused T09 at 1:25",
    "int main(void) { return 'a; } => 241: refused Unclosed at 1:25",
    "int main(void) { return ; } => 241: refused T22 at 1:18",
    "int main(void) { putchar(); } => 241: refused T13 at 1:18",
    "int main(void) { return 0; } int => 241: refused syntax at 1:33",
    "int main(void) { return x; } => 241: refused T03 at 1:25",
    "int main(void) { int x; int x; } => 241: refused T04 at 1:29",
    "int main(void) { int x; { int x; x = y; } } => 241: refused T03 at 1:38",
    "int main(void) { return x; @ } => 241: refused BadByte at 1:28",
    "int main(void) { x; return ; } => 241: refused T03 at 1:18",
    "int main(void) { if (1) int x; } => 241: refused syntax at 1:25",
    "int main(void) { 5 = 1; } => 241: refused T09 at 1:18",
    "int main(void) { int getchar; } => 241: refused T04 at 1:22",
    "int main(void) { return 1 + ; } => 241: refused syntax at 1:29",
    "int main(void) { goto x; } => 241: refused syntax at 1:18",
    "int main(void) { } } => 241: refused syntax at 1:20",
];

// Each type rule, at its place: expected lines are those of an independent model.
const TYPE_RULES: [&str; 89] = [
    "int main(void) { break; } => 241: refused T20 at 1:18",
    "int main; => 241: refused T02 at 1:5",
    "void main(void) {} => 241: refused T02 at 1:6",
    "int main{return 0;} => 241: refused T02 at 1:5",
    "int main(void) { return x; } => 241: refused T03 at 1:25",
    "int f(struct s *p); int main(void){return 0;} => 241: refused T03 at 1:14",
    "int f(int a) { int a; return 0; } int main(void){return 0;} => 241: refused T04 at 1:20",
    "int f(int a, int a); int main(void){return 0;} => 241: refused T04 at 1:18",
    "int x = 1; int x = 1; int main(void){return 0;} => 241: refused T04 at 1:16",
    "int f(); int f(void); int f(int); int main(void){return 0;} => 241: refused T04 at 1:27",
    "struct s {int x;}; struct s {int x;}; int main(void){return 0;} => 241: refused T04 at 1:27",
    "int x; long x{return 0;} int main(void){return 0;} => 241: refused T04 at 1:13",
    "int malloc; int main(void){return 0;} => 241: refused T04 at 1:5",
    "void free(void *p) {} int main(void){return 0;} => 241: refused T04 at 1:6",
    "void x; int main(void){return 0;} => 241: refused T05 at 1:6",
    "void a[3]; int main(void){return 0;} => 241: refused T05 at 1:6",
    "struct s a[3]; int main(void){return 0;} => 241: refused T05 at 1:10",
    "struct s {int f(void);}; int main(void){return 0;} => 241: refused T05 at 1:15",
    "struct s x; struct s {int y;}; int main(void){return 0;} => 241: refused T05 at 1:10",
    "int main(void) { return sizeof(void); } => 241: refused T05 at 1:32",
    "int x { } int main(void){return 0;} => 241: refused T05 at 1:5",
    "int f(int, void); int main(void){return 0;} => 241: refused T05 at 1:12",
    "struct u; int f(struct u x); int main(void){return 0;} => 241: refused T05 at 1:26",
    "struct u; int f(struct u); int main(void){return 0;} => 241: refused T05 at 1:17",
    "struct u; int f(struct u x) { return 0; } int main(void){return 0;} => 241: refused T05 at 1:26",
    "int f(void)[3]; int main(void){return 0;} => 241: refused T05 at 1:5",
    "int main(void) { int f(void); } => 241: refused T05 at 1:22",
    "int a[]; int main(void){return 0;} => 241: refused T06 at 1:5",
    "int a[-1]; int main(void){return 0;} => 241: refused T06 at 1:5",
    "int a[2][] = {{1}}; int main(void){return 0;} => 241: refused T06 at 1:5",
    "int f(int a[0]); int main(void){return 0;} => 241: refused T06 at 1:11",
    "int main(void) { int a[3]; return -a; } => 241: refused T07 at 1:36",
    "int main(void) { int *p; switch (p) {} } => 241: refused T07 at 1:34",
    "int main(void) { int *p; p += p; } => 241: refused T07 at 1:31",
    "struct s {int a;} x; int main(void) { if (x) ; return 0; } => 241: refused T08 at 1:43",
    "struct s {int a;} x; int main(void) { return !x; } => 241: refused T08 at 1:47",
    "int main(void) { 5 = 1; } => 241: refused T09 at 1:18",
    "int main(void) { int a[2]; int b[2]; a = b; } => 241: refused T09 at 1:38",
    "int main(void) { &5; } => 241: refused T09 at 1:18",
    "int main(void) { main = 0; } => 241: refused T09 at 1:18",
    "int main(void) { int x; int *p = x; } => 241: refused T10 at 1:34",
    "int main(void) { int x; long *p = &x; } => 241: refused T10 at 1:35",
    "int f(int *p) {return 0;} int main(void) { return f(1); } => 241: refused T10 at 1:53",
    "struct s {int a;} x; struct s y; int main(void) { x = y; return 0; } => 241: refused T10 at 1:55",
    "int main(void) { int *p; long *q; return p == q; } => 241: refused T11 at 1:42",
    "int main(void) { int *p = NULL; void *q = NULL; return p < q; } => 241: refused T11 at 1:56",
    "int main(void) { return main < main; } => 241: refused T11 at 1:25",
    "int main(void) { int *p = NULL; return 1 - p; } => 241: refused T11 at 1:40",
    "int main(void) { int x; x(); } => 241: refused T12 at 1:25",
    "int main(void) { return main(1); } => 241: refused T13 at 1:25",
    "int main(void) { exit(); } => 241: refused T13 at 1:18",
    "int main(void) { void *p; *p; } => 241: refused T14 at 1:27",
    "int main(void) { int x; x[1]; } => 241: refused T14 at 1:25",
    "struct s; struct s *p; int main(void) { p++; return p->x; } struct s {int x;}; => 241: refused T14 at 1:41",
    "int main(void) { int x; *x = y; } => 241: refused T14 at 1:25",
    "int main(void) { int x; x.y; } => 241: refused T15 at 1:25",
    "struct s {int a;} x; int main(void) { return x.b; } => 241: refused T15 at 1:46",
    "int main(void) { int *p; return (int)p; } => 241: refused T16 at 1:33",
    "int main(void) { (void *)main; } => 241: refused T16 at 1:18",
    "struct s {int a;} x; int main(void) { (struct s)x; return 0; } => 241: refused T16 at 1:39",
    "int x; int y = x; int main(void){return 0;} => 241: refused T17 at 1:16",
    "int main(void) { int n = 3; int a[n]; } => 241: refused T17 at 1:35",
    "int main(void) { int n; switch (1) { case n: ; } } => 241: refused T17 at 1:43",
    "int x; int y = &x != NULL; int main(void){return 0;} => 241: refused T17 at 1:16",
    "int x = {1}; int main(void){return 0;} => 241: refused T18 at 1:9",
    "struct s {int a;}; struct s x = 1; int main(void){return 0;} => 241: refused T18 at 1:33",
    "int a[2] = 1; int main(void){return 0;} => 241: refused T18 at 1:12",
    "char a[2] = \"ab\"; char b[2] = \"abc\"; int main(void){return 0;} => 241: refused T18 at 1:31",
    "int main(void) { int a[2] = {1,2}; } => 241: refused T18 at 1:29",
    "int main(void) { int x = {1}; } => 241: refused T18 at 1:26",
    "struct s {int a;} x; int main(void) { x; return 0; } => 241: refused T19 at 1:39",
    "struct s {int a;}; int f(struct s x); int main(void){return 0;} => 241: refused T19 at 1:35",
    "struct s {int a;}; struct s (*g)(void); int main(void){return 0;} => 241: refused T19 at 1:31",
    "int main(void) { switch (1) { continue; } } => 241: refused T20 at 1:31",
    "int main(void) { switch (1) { case 1: break; case 0+1: ; } } => 241: refused T21 at 1:46",
    "int main(void) { switch (1u) { case -1: case 4294967295: ; } } => 241: refused T21 at 1:41",
    "int main(void) { return; } => 241: refused T22 at 1:18",
    "int f(void); int main(void) { return f(); } => 241: refused T23 at 1:38",
    "int main(void) { return malloc == NULL; } => 241: refused T23 at 1:25",
    "int main(void) { (*putchar)('x'); } => 241: refused T23 at 1:20",
    "int a[1/0]; int main(void){return 0;} => 241: refused T24 at 1:7",
    "int a = 1 << 31; int main(void){return 0;} => 241: refused T24 at 1:9",
    "int a = 1 + 1/0; int main(void){return 0;} => 241: refused T24 at 1:9",
    "int a[3]; int *p = &a[4]; int main(void){return 0;} => 241: refused T24 at 1:20",
    "int x; int *p = &x + 2; int main(void){return 0;} => 241: refused T24 at 1:17",
    "int main(void) { switch (1) { case 1 << 40: ; } } => 241: refused T24 at 1:36",
    "int main(void) { int (*p)(void) = (void *)NULL; return 0; } => 241: refused T10 at 1:35",
    "int f(void); int y = f(); int main(void) { return 0; } => 241: refused T17 at 1:22",
    "int f(void); int main(void) { return (int)f; } => 241: refused T16 at 1:38",
];

// Near each type rule a program that doesn't violate it.
const ACCEPTED: [&str; 24] = [
    "int main(void) { return 0; } int f(void) { return 1; }",
    "int main(void); int main(void) { return 0; }",
    "int f(void); int main(void) { return f(); } int f(void) { return 2; }",
    "int x; int x; int main(void) { int x; { int x; } return 0; }",
    "struct s { struct s *next; int i; }; struct s g; int main(void) { return sizeof(struct s) == 16; }",
    "int f(int a[]) { return a[0]; } int main(void) { int a[1]; a[0] = 3; return f(a); }",
    "int main(void) { return ~5 % 3 + (6 & 2) + (1 << 3); }",
    "int main(void) { int *p; p = NULL; if (p) return 1; return p || !p ? 2 : 3; }",
    "int main(void) { int a[2]; int *p; p = &a[1]; *p = 1; (*p)++; return *p; }",
    "void *g; int main(void) { int *p; g = p = NULL; p = g; p = 0; return p == NULL; }",
    "int main(void) { int a[2]; int *p; p = a + 1; return p - a + (p > a) + (p == NULL); }",
    "int f(void) { return 1; } int (*g)(void); int main(void) { g = f; return g() + (*g)(); }",
    "int f(int a, int b) { return a - b; } int main(void) { return f(3, 1) + getchar(); }",
    "struct s { int a; struct s *b; }; int main(void) { struct s s; struct s *p; p = &s; p->a = 1; return p->a; }",
    "struct s { int a; int b; }; int main(void) { struct s s; s.b = 2; return s.b; }",
    "int main(void) { int *p; p = (int *)0; return (char *)p == (char *)(void *)p; }",
    "int a[2 * 3 - 1]; int main(void) { switch (1) { case 1 + 1: return 2; } return 0; }",
    "int a[2] = { 1, 2 }; char s[3] = \"abc\"; int main(void) { int i = 3; return i; }",
    "struct s { int a; }; struct s *f(struct s *p) { return p; } int main(void) { struct s s; return f(&s)->a; }",
    "int main(void) { while (1) { break; } for (;;) { if (1) break; continue; } return 0; }",
    "int main(void) { switch (3) { case 1: case 2: return 1; default: switch (1) { case 1: default: return 2; } } }",
    "void f(void) { return; } int main(void) { f(); return 0; }",
    "int f(void); int main(void) { return 0; }",
    "int a[1 + 2147483646 - 2147483645]; int main(void) { return 7 / 2; }",
];

// The behaviour is undefined: any answer of a run will do.
const UNDEFINED: [&str; 8] = [
    "int main(void) { return 1 / 0; }",
    "int main(void) { return 1 % 0; }",
    "int main(void) { return 2147483647 + 1; }",
    "int main(void) { return (-2147483647-1) % -1; }",
    "int main(void) { return (-2147483647-1) / -1; }",
    "int main(void) { return -(-2147483647-1); }",
    "int main(void) { int x; return x + 1; }",
    "int main(void) { int *p = malloc(sizeof(int)); *p = 5; free(p); return *p; }",
];

/// The first text that is not run to an end of its own, or to a trap where that is allowed.
fn first_not_run<'a>(
    alloc: Global,
    texts: &[&'a str],
    may_trap: bool,
) -> Result<Option<&'a str>, AllocError> {
    for text in texts {
        let did = command(alloc, EXEC, text.as_bytes(), b"", NONE)?;
        match did.status {
            Status::Program(_) => {}
            Status::Trapped(_) if may_trap => {}
            _ => return Ok(Some(text)),
        }
    }
    Ok(None)
}

#[test]
fn refusals_name_their_place(rt: HostRuntime) -> Result<(), AllocError> {
    let alloc = rt.alloc();
    assert_eq!(rt; first_wrong(alloc, EXEC, &REFUSALS)?, None);
    assert_eq!(rt; first_wrong(alloc, EXEC, &TYPE_RULES)?, None);
    Ok(())
}

#[test]
fn what_violates_no_rule_is_run(rt: HostRuntime) -> Result<(), AllocError> {
    let alloc = rt.alloc();
    assert_eq!(rt; first_not_run(alloc, &ACCEPTED, false)?, None);
    assert_eq!(rt; first_not_run(alloc, &UNDEFINED, true)?, None);
    Ok(())
}
