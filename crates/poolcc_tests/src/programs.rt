// Programs that are run by both `exec` and `ref` or by one of them. Expected answers come from the rules of the language and of the machine.

use crate::commands::{EXEC, NONE, REF, first_wrong, wrong};
use std::alloc::{AllocError, Global};

const PROGRAMS: [&str; 27] = [
    "int main(void){return 0;} => 0",
    "int main(void) { return 263; } => 7",
    "int main(void) { } => 0",
    "int main(void) { ; ((putchar('x'))); return EOF; putchar('y'); } => 255, writes x",
    "int main(void) { putchar(getchar()); return getchar(); } => 255, writes \u{ff}",
    "int main(void) { return putchar(putchar('7')); } => 55, writes 77",
    "int main(void) { return '\\377'; } => 255",
    "#include <stdio.h>\nint main(void) { // 'two\n  putchar(/* \" */ 'a'); return 010 + 0x1F; } => 39, writes a",
    "\tint\nmain ( void )\r{ return\x0b'\\x41' ; }\x0c => 65",
    "int main(void) { int c; while ((c = getchar()) != EOF) putchar(c); return 7; } <- ab\n => 7, writes ab\n",
    "int main(void) { int n = 0; while (getchar() != EOF) n = n + 1; putchar('0' + n % 10); return n; } <- twelve bytes => 12, writes 2",
    "int main(void) { return -249; } => 7",
    "int main(void) { return 7 / -2 + 10; } => 7",
    "int main(void) { return -7 % 3 + 10; } => 9",
    "int main(void) { return 2 + 3 * 4 == 14 && !0; } => 1",
    "int main(void) { return 100 - 20 - 3; } => 77",
    "int main(void) { return 100 / 5 / 2; } => 10",
    "int main(void) { int a; int b; a = b = 5; return a * 10 + b; } => 55",
    "int main(void) { int x = 1; { int x = 2; x = 3; } return x; } => 1",
    "int main(void) { 0 && putchar('a'); 1 || putchar('b'); 1 && putchar('c'); 0 || putchar('d'); return 0; } => 0, writes cd",
    "int main(void) { if (1) if (0) putchar('a'); else putchar('b'); return 0; } => 0, writes b",
    "int main(void) { return (-1 < 1) + 2 * (3 >= 3) + 4 * (2 > 2) + 8 * (1 <= 0) + 16 * (5 != 4) + 32 * (5 == 5); } => 51",
    "int main(void) { int i = 0; while (i < 3) { int j = 0; while (j < 2) { putchar('0' + i * 2 + j); j = j + 1; } i = i + 1; } return i; } => 3, writes 012345",
    "int main(void) { int x = 1; return (x = 40) + x + 2; } => 82",
    "int main(void) { return (-2147483647 - 1) / 16777216; } => 128",
    "int main(void) { int x; if (getchar() == 'a') x = 1; else { x = 2; } while (x) { return x; } return 9; } <- b => 2",
    "int main(void) { putchar(getchar()); putchar('!'); return 3; } <- ab => 3, writes a!, leaves b",
];

// All integer types, operators and statements (C17 6.3.1, 6.5, 6.8), and `exit`.
const INTEGERS: [&str; 20] = [
    "int main(void) { return 4294967295u + 1u; } => 0",
    "int main(void) { unsigned char c = 200; c += 100; return c; } => 44",
    "int main(void) { int s = 0; for (int i = 0; i < 5; i++) { if (i == 1) continue; if (i == 4) break; s += i; } return s; } => 5",
    "int main(void) { int n = 0; do { n++; } while (n < 7); return n; } => 7",
    "int main(void) { switch (getchar()) { case 'a': putchar('1'); case 'b': putchar('2'); break; default: putchar('3'); } return 0; } <- a => 0, writes 12",
    "int main(void) { switch (getchar()) { default: putchar('3'); case 'b': putchar('2'); break; case 'a': putchar('1'); } return 0; } <- z => 0, writes 32",
    "int main(void) { long a = 1; return (a << 40) >> 38; } => 4",
    "int main(void) { int i = 5; int j = i++ * 10 + --i; return j + i; } => 60",
    "int main(void) { return sizeof(long) + sizeof(char) * 10; } => 18",
    "int main(void) { return (char)200 == -56 ? 1 : 2; } => 1",
    "int main(void) { exit(9); return 1; } => 9",
    "int main(void) { signed char c = -1; unsigned short s = c; return s == 65535 && (c & 15) == 15 && (~c | 6 ^ 3) == 5; } => 1",
    "int main(void) { unsigned long m = -1; return m / 2 > 9223372036854775806 && m % 10 == 5; } => 1",
    "int main(void) { char c = 1; long l = 2; return c + l; } => 3",
    "int main(void) { switch (5UL) { case 0xFFFFFFFFFFFFFFFF: return 1; case 5: return 2; } return 3; } => 2",
    "int main(void) { short s = 32767; s++; return s == -32768; } => 1",
    "int main(void) { int k = 3; for (;;) { if (!k--) break; putchar('x'); } return k + 2; } => 1, writes xxx",
    "int main(void) { int x = 7; x <<= 2; x |= 1; x ^= 3; x %= 10; x -= -1; return x; } => 1",
    "int main(void) { unsigned u = 3; long l = -4; return l < u ? -l * u : 1; } => 12",
    "int main(void) { (void)putchar('a'); getchar() < 0 ? (void)0 : exit(3); return 4; } => 4, writes a",
];

// What the machine and the meaning of the language agree in.
const MEANT: [&str; 11] = [
    "int main(void){return 0;} => 0",
    "int main(void) { int c; while ((c = getchar()) != EOF) putchar(c); return 7; } <- ab\n => 7, writes ab\n",
    "int main(void) { return 263; } => 7",
    "int main(void) { return -249; } => 7",
    "int main(void) { return 4294967295u + 1u; } => 0",
    "void *v = &\"abc\"; char *p = \"abc\" + 1; int main(void) { char (*a)[4] = v; return (*a)[2] - *p; } => 1",
    "int f(void) { return 5; } int main(void) { return ((int (*)(void))(int (*)(int))f)(); } => 5",
    "struct a { int x; }; struct b { long y; long z; }; struct c { void *p; struct c *next; }; struct c *add(struct c *l, void *p) { struct c *q = malloc(sizeof(struct c)); q->p = p; q->next = l; return q; } int main(void) { struct a *a = malloc(sizeof(struct a)); struct b *b = malloc(sizeof(struct b)); struct c *l = NULL; a->x = 65; b->y = 66; l = add(l, a); l = add(l, b); putchar(((struct b *)l->p)->y); putchar(((struct a *)l->next->p)->x); return 0; } => 0, writes BA",
    "struct n { int v; struct n *next; }; int main(void) { int i = 0; while (i < 4) { struct n *p = malloc(sizeof(struct n)); p->v = i; p->next = NULL; putchar('0' + p->v); free(p); i = i + 1; } return 0; } => 0, writes 0123",
    "int main(void) { free(NULL); if (malloc(0) == NULL) putchar('y'); return 0; } => 0, writes y",
    "int f(int k) { if (k == 0) return 0; return f(k - 1); } int main(void) { return f(9998); } => 0",
];

/// Lists of integers from 1 up.
const LISTS: &str = "struct n { int v; struct n *next; };
struct n *makelist(int k) { struct n *h = NULL; while (k > 0) { struct n *p = malloc(sizeof(struct n)); p->v = k; p->next = h; h = p; k = k - 1; } return h; }
";

// Programs that stand behind those lists.
const LIST_PROGRAMS: [&str; 5] = [
    "int main(void) { struct n *l = makelist(3); while (l != NULL) { putchar('0' + l->v); l = l->next; } return 0; } => 0, writes 123",
    "int main(void) { struct n *a = makelist(2); struct n *b = makelist(3); putchar('0' + a->v); putchar('0' + b->next->v); return 0; } => 0, writes 12",
    "struct n *g; int main(void) { g = makelist(2); putchar('0' + g->next->v); return 0; } => 0, writes 2",
    "int sum(struct n *l) { int s = 0; while (l != NULL) { s = s + l->v; l = l->next; } return s; } int main(void) { struct n h; struct n *a = makelist(3); h.v = 1; h.next = makelist(2); putchar('0' + sum(a)); putchar('0' + sum(&h)); return 0; } => 0, writes 64",
    "struct n *one(int k) { return makelist(k); } struct n *none(int k) { return NULL; } struct n *(*tab[2])(int) = { one, none }; int main(void) { struct n *a = tab[0](2); struct n *b = tab[1](2); putchar(a != NULL ? 'a' : '-'); putchar(b == NULL ? 'b' : '-'); return 0; } => 0, writes ab",
];

// Ends and refusals of `ref`.
const REF_ROWS: [&str; 20] = [
    "int f(int k) { if (k == 0) return 0; return f(k - 1); } int main(void) { return f(9999); } => 247: call depth reached",
    "int main(void) { int x; return x; } => 245: undefined U04 at 1:32",
    "int main(void) { int *p = malloc(sizeof(int)); *p = 5; free(p); return *p; } => 245: undefined U06 at 1:72",
    "int main(void) { return (-2147483647-1)/-1; } => 245: undefined U01 at 1:25",
    "int main(void) { int x; int y; return &x + 1 == &y; } => 245: undefined U09 at 1:39",
    "int main(void) { char *p = malloc(-1); &p[(p + 18446744073709551615ul) - p]; return 5; } => 245: undefined U10 at 1:43",
    "int main(void) { void *v = malloc(8); int *p = v; return v < (void *)(p + 1); } => 1",
    "int main(void) { int *p = NULL; p--; return 0; } => 245: undefined U17 at 1:33",
    "int main(void) { int *p = NULL; p = p - 1; return 0; } => 245: undefined U17 at 1:37",
    "int main(void) { int *p = NULL; p = -1 + p; return 0; } => 245: undefined U17 at 1:37",
    "int main(void) { int *p = NULL; p -= 1; return 0; } => 245: undefined U17 at 1:33",
    "int main(void) { int *p = NULL; p = &p[-1]; return 0; } => 245: undefined U17 at 1:38",
    "void *g(void) { exit(3); return NULL; } int main(void) { int *p = malloc(4); free(p); return p == g(); } => 3",
    "int main(void) { int *p = malloc(4); void **q = NULL; free(p); return p == *q; } => 245: undefined U05 at 1:76",
    "int main(void) { void *v = NULL; int *p = malloc(4); free(p); return v != p; } => 245: undefined U06 at 1:70",
    "int main(void) { int x; return (x); } => 245: undefined U04 at 1:33",
    "int f(char a[1048577]); int main(void) { return 0; } => 0",
    "int main(void) { return 1 + ; } => 241: refused syntax at 1:29",
    "int main(void) { return 0x; } => 241: refused BadLiteral at 1:25",
    " => 241: refused T01 at 1:1",
];

/// The first of these that does not hold.
fn first_wrong_list(alloc: Global, line: &str) -> Result<Option<String>, AllocError> {
    for row in &LIST_PROGRAMS {
        let whole = format!(in alloc; "{LISTS}{row}")?;
        if let Some(found) = wrong(alloc, line, NONE, whole.as_str())? {
            return Ok(Some(found));
        }
    }
    Ok(None)
}

#[test]
fn programs_run(rt: HostRuntime) -> Result<(), AllocError> {
    let alloc = rt.alloc();
    assert_eq!(rt; first_wrong(alloc, EXEC, &PROGRAMS)?, None);
    assert_eq!(rt; first_wrong(alloc, EXEC, &INTEGERS)?, None);
    Ok(())
}

#[test]
fn programs_mean_how_they_end(rt: HostRuntime) -> Result<(), AllocError> {
    let alloc = rt.alloc();
    assert_eq!(rt; first_wrong(alloc, EXEC, &MEANT)?, None);
    assert_eq!(rt; first_wrong(alloc, REF, &MEANT)?, None);
    assert_eq!(rt; first_wrong(alloc, REF, &REF_ROWS)?, None);
    Ok(())
}

#[test]
fn programs_over_lists_run(rt: HostRuntime) -> Result<(), AllocError> {
    let alloc = rt.alloc();
    assert_eq!(rt; first_wrong_list(alloc, EXEC)?, None);
    assert_eq!(rt; first_wrong_list(alloc, REF)?, None);
    Ok(())
}
