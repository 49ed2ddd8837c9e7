//! Programs with the word `__farflash`, from their tokens. Blanks stand between the tokens, and in
//! words is told what a program does, or the first constraint that it breaks and the token at which it is told.
ghost use Rattle.ec_iohw.specs.Valid.{ValidIo};

use crate::rows::{Row, Shown, is_told_of_tokens, map};
use ec_iohw::IoTable;
use std::alloc::Global;
use std::process::Abort;

/// What pointers reach, and where they convert.
static RUNS: [Row; 13] = [
    (
        "const __farflash int a [ 3 ] = { 5 , 6 , 700 } ; int get ( const int * b ) { return * b ; } int main ( void ) \
        { const __farflash int * c = & a [ 2 ] ; return get ( c ) + get ( & a [ 0 ] ) ; }",
        "c=&a+4 c:&a+4 b=&a+4 b:&a+4 a.2:700 b=&a+0 b:&a+0 a:5 ends 705",
    ),
    (
        "const __farflash int a [ 2 ] = { 5 , 6 } ; int main ( void ) { return a [ 1 ] ; }",
        "a.1:6/farflash ends 6",
    ),
    (
        "const __flash int a = 7 ; int main ( void ) { const __farflash int * b = & a ; const int * c = b ; return * b - * c ; }",
        "b=&a+0 b:&a+0 c=&a+0 b:&a+0 a:7/farflash c:&a+0 a:7 ends 0",
    ),
    (
        "const __flash int a = 7 ; const __farflash int b = 9 ; int main ( void ) { return * ( a > 8 ? & a : & b ) ; }",
        "a:7/flash b:9/farflash ends 9",
    ),
    (
        "const __flash int a = 7 ; int main ( void ) { const __farflash int * b = & a ; return * ( const __flash int * ) b ; }",
        "b=&a+0 b:&a+0 a:7/flash ends 7",
    ),
    (
        "const __farflash int a = 7 ; int main ( void ) { ( const __flash int * ) & a ; return 0 ; }",
        "meets Narrowing at 13",
    ),
    (
        "static int a ; int main ( void ) { ( const __farflash int * ) & a ; return 0 ; }",
        "meets Narrowing at 10",
    ),
    (
        "const __farflash int a = 7 ; int main ( void ) { * ( int * ) & a = 2 ; return 0 ; }",
        "meets ConstWrite at 13",
    ),
    (
        "const __farflash int a [ 2 ] ; static const __farflash int * b = & a [ 1 ] ; static const int * c = a ; \
        int main ( void ) { return b - a + ( b == c ) ; }",
        "b:&a+2 b:&a+2 c:&a+0 ends 1",
    ),
    (
        "struct s { char m ; const __farflash int * n ; } ; const __farflash struct s a [ 2 ] = { { 1 } , { 2 } } ; int main ( \
        void ) { return a [ 1 ] . m + ( a -> n == 0 ) ; }",
        "a.2:2/farflash a.1:null/farflash ends 3",
    ),
    (
        "int main ( void ) { const __farflash int * a = 0 ; const int * b = a ; return b == 0 ; }",
        "a=null a:null b=null b:null ends 1",
    ),
    (
        "int main ( void ) { return ( int ) sizeof ( const __farflash int * ) ; }",
        "ends 3",
    ),
    (
        "extern const __farflash int a ; int main ( void ) { return a ; } const __farflash int a = 4 ;",
        "a:4/farflash ends 4",
    ),
];

/// Constraints on spaces and on pointers into them.
static BROKEN: [Row; 15] = [
    (
        "int main ( void ) { const __farflash int * q ; const __flash int * p ; p = q ; return 0 ; }",
        "29 at 19",
    ),
    (
        "int main ( void ) { const int * q ; const __farflash int * p ; p = q ; return 0 ; }",
        "29 at 18",
    ),
    (
        "int f ( const __flash int * p ) { return * p ; } const __farflash int a = 7 ; int main ( void ) { return f ( & a ) ; }",
        "29 at 31",
    ),
    (
        "const __farflash int a = 7 ; const __flash int * p = & a ; int main ( void ) { return 0 ; }",
        "29 at 13",
    ),
    (
        "const __farflash int a = 7 ; int main ( void ) { int * p = & a ; return 0 ; }",
        "30 at 17",
    ),
    (
        "int main ( void ) { const __farflash int * a ; ( const __data int * ) a ; return 0 ; }",
        "31 at 12",
    ),
    (
        "int main ( void ) { const __farflash int * a ; const __data int * b ; a == b ; return 0 ; }",
        "32 at 19",
    ),
    (
        "const __farflash int a = 1 ; int main ( void ) { a = 2 ; return 0 ; }",
        "27 at 14",
    ),
    (
        "__farflash int a ; int main ( void ) { return 0 ; }",
        "4 at 0",
    ),
    (
        "int main ( void ) { __farflash int * a ; return 0 ; }",
        "4 at 6",
    ),
    (
        "int main ( void ) { const int * __farflash a ; return 0 ; }",
        "3 at 9",
    ),
    (
        "const __flash __farflash int a ; int main ( void ) { return 0 ; }",
        "2 at 2",
    ),
    (
        "const __farflash int a = 1 , * __data __farflash const b ; int main ( void ) { return 0 ; }",
        "2 at 9",
    ),
    (
        "int main ( void ) { const __farflash int a = 1 ; return 0 ; }",
        "3 at 7",
    ),
    (
        "const __farflash int a = 1 ; extern const __flash int a ; int main ( void ) { return 0 ; }",
        "6 at 11",
    ),
];

fn compare(rt: &impl Abort, alloc: Global, rows: &[Row], io: &IoTable)
    requires { ValidIo io.now }
{
    for &(text, want) in rows {
        let told = is_told_of_tokens(alloc, Shown::Run, text, io, want);
        assert!(rt; told, "{text}");
    }
}

#[test]
fn far_objects(rt: HostRuntime) {
    match map(rt.alloc()) {
        Ok(map) => compare(&rt, rt.alloc(), &RUNS, &map.io),
        Err(_) => panic!(rt; "no map"),
    }
}

#[test]
fn far_constraints(rt: HostRuntime) {
    match map(rt.alloc()) {
        Ok(map) => compare(&rt, rt.alloc(), &BROKEN, &map.io),
        Err(_) => panic!(rt; "no map"),
    }
}
