//! What each rule asks, in words, with the section of the standard that it comes from. C99 is ISO/IEC 9899:1999, and
//! Embedded C is ISO/IEC TR 18037:2008.
use crate::notices::Kind;

/// What each constraint of the language asks, by its number. The first row is constraint 1.
pub static CONSTRAINTS: [&str; 40] = [
    "these words name no type: one set of type words (there is no `long long`), at most one of `extern` and `static`, \
    and neither in a parameter, a member, a register declaration or a type name (C99 6.7.1, 6.7.2)",
    "one list of qualifiers names at most one address space (Embedded C 5.1.2)",
    "an address space qualifies file-scope objects and what a pointer points to, and no block object, parameter, \
    member, named register or result (Embedded C 5.1.2)",
    "an object in `__flash` or `__farflash` cannot be written: add `const` (C99 6.7.3)",
    "this name is declared in this scope already, or a parameter of a function definition has no name (C99 6.7, 6.9.1)",
    "this name is declared before with another type, space or linkage, or it is defined twice: write `extern` where \
    it is only declared (C99 6.2.2, 6.7, 6.9)",
    "`void` stands only for no result and for no parameters: there are no void objects, pointers or casts (C99 \
    6.2.5, 6.7.5.3)",
    "the size of an array is an integer constant expression from 1 to 32767; it may be left out only before a \
    braced initialiser (C99 6.7.5.2)",
    "an object or a struct has at most 32767 bytes (C99 5.2.4.1)",
    "no definition of this struct stands before its use in this unit, or it is defined twice (C99 6.7.2.3)",
    "a member of a struct is neither const nor a function (C99 6.7.2.1)",
    "a named register is one of `_R2` to `_R7`; its object is an integer or a fixed-point number and ends at R7 \
    (Embedded C 5.2.2)",
    "another named-register object has this register: two share registers only where name, type and first register \
    agree (Embedded C 5.2.2)",
    "a scalar is initialised without braces, an array or a struct with braces, and with no more items than it has \
    (C99 6.7.8)",
    "an object of static storage is initialised by constant expressions whose values are defined (C99 6.6, 6.7.8)",
    "an `extern` declaration or a function has no initialiser, and a block holds no `extern`, `static` or function \
    declaration (C99 6.7.8, 6.7.1)",
    "parameters are scalar, and a result is scalar or void: pass a pointer instead (C99 6.7.5.3, 6.9.1)",
    "a program has one `int main(void)`, which is not static (C99 5.1.2.2.1)",
    "no unit defines this function or `extern` object (C99 6.9)",
    "this name is not declared before its use (C99 6.5.1)",
    "a function's name is only called, and only a function's name is called: there are no pointers to functions \
    (C99 6.5.2.2)",
    "the number of arguments is that of the parameters: one for each (C99 6.5.2.2)",
    "these operands do not suit this operator; of `*` both have one byte before any promotion (C99 6.5.3.3, 6.5.5 \
    to 6.5.7, 6.5.10 to 6.5.12)",
    "the two operands are both arithmetic, or pointers to one type, or for `==`, `!=` and `?:` a pointer and 0 (C99 \
    6.5.8, 6.5.9, 6.5.15)",
    "a condition and an operand of `!`, `&&` or `||` is a number or a pointer (C99 6.5.3.3, 6.5.13 to 6.5.15, \
    6.8.4, 6.8.5)",
    "the operand names no object that can be assigned, stepped or pointed to; arrays and structs are not assigned \
    (C99 6.5.2.4, 6.5.3.1, 6.5.3.2, 6.5.16)",
    "what is const is not assigned (C99 6.5.16)",
    "the value is not converted to this type: both are arithmetic, or pointers to one type, or the value is 0 for a \
    pointer (C99 6.5.16.1)",
    "a pointer is converted without a cast only to a space that encloses its own: cast it where the object is known \
    to lie there (Embedded C 5.1.3)",
    "the conversion would drop `const` from what is pointed to: what lies in `__flash` is pointed to by `const __flash T *`, in \
    `__farflash` by `const __farflash T *` (C99 6.5.16.1)",
    "a cast is between arithmetic types, between pointers to one type whose spaces nest, or of 0 to a pointer; a fixed address \
    is a port of the map (<iohw.h>), or of an object that `place` of the map puts there (C99 6.5.4, Embedded C 5.1.3)",
    "two pointers meet here and neither space encloses the other (Embedded C 5.1.3)",
    "an object in named registers has no address (Embedded C 5.2)",
    "`*`, `[ ]` and `->` need a pointer (to a struct for `->`), `.` a struct, and an index is an integer (C99 \
    6.5.2.1, 6.5.2.3, 6.5.3.2)",
    "the struct has no such member (C99 6.5.2.3)",
    "the first argument of a port operation names a port of the map, and that of `iogroup_acquire` or `iogroup_release` a group \
    or a dynamic group of it; the operation has its own number of arguments; and those of `iogroup_map` are the name of a dynamic \
    group and then, without parentheses, that of a group among its choices (Embedded C 6.3)",
    "a port of width 4 is read and written by the operations that end in `l` or `bufl` (Embedded C 6.3)",
    "`break` and `continue` stand in a loop (C99 6.8.6.2, 6.8.6.3)",
    "`return` has a value exactly where the function has a result (C99 6.8.6.4)",
    "a void value is no operand, argument, initialiser or condition, and a struct is no expression of its own (C99 \
    6.3.2.2)",
];

/// What each rule of a map asks, by its number. The first row is rule 1.
pub static MAP_RULES: [&str; 22] = [
    "a map has the keys `core` and `region`, and may have `port`, `group`, `place` and `dynamic`, and no other",
    "`core` is the string \"small\" or \"large\"",
    "`region` is a table with the keys `code`, `tables`, `data` and `stack`, and no other but `far` on the core large",
    "each region is an array of two integers: the first address from 0, and the size from 1, each at most 131072",
    "on the core small `code` and `tables` end by 32768, and `data` and `stack` by 2304; on the core large `code` ends by 131072, \
    `far` by 131071, `tables` by 65535, and `data` and `stack` by 16640; `data` and `stack` begin at 256 or later",
    "`code` begins at 0, and its size is even",
    "no two of `code`, `tables` and `far` share a byte, and neither do `data` and `stack`",
    "`port` is an array of at most 64 tables with `name`, `address` and `width`, and no other keys but `count` and \
    `group`",
    "the name of each port is an identifier, and no two ports have one name",
    "a width is 1, 2 or 4, and a count is from 1 to 220",
    "an address is an integer from 0 to 255, and all bytes of a port that is of no dynamic group are ports: 0x20 to 0xFF but for \
    0x5D, 0x5E and 0x5F, and on the core large 0x5B",
    "`group` is an array of at most 16 tables with exactly `name`, `acquire` and `release`",
    "the name of each group is an identifier, and no two groups have one name",
    "`acquire` and `release` are arrays of at most 32 arrays of two integers",
    "each pair is the address of a port and a byte from 0 to 255",
    "the `group` of a port is a string that names a group or a dynamic group of the map",
    "`place` is a table",
    "a place is an integer from 1 to 65535, and on the core large to 131071",
    "`dynamic` is an array of at most 8 tables with exactly `name` and `choices`",
    "the name of each dynamic group is an identifier, and no two among dynamic groups and groups have one name",
    "`choices` is an array of 1 to 8 arrays of the name of a group and a base from 0 to 255; no group and no base stands twice in it",
    "from the base of each choice on, all bytes of each port of the dynamic group are ports: 0x20 to 0xFF but for 0x5D, 0x5E and \
    0x5F, and on the core large 0x5B",
];

/// What each rule of a line of a script asks, by its number. The first row is rule 1.
pub static SCRIPT_RULES: [&str; 4] = [
    "a line is two hexadecimal digits, `:`, and then bytes, each behind a space, or ` hook`",
    "the address is that of a port: 0x20 to 0xFF but for 0x5D, 0x5E and 0x5F, and on the core large 0x5B",
    "an earlier line has the same address",
    "the line names another core than the program is made for",
];

/// What each rule of a line of a listing asks, by its number. The first row is rule 1.
pub static LISTING_RULES: [&str; 3] = [
    "a line is an address of five capital hexadecimal digits, `: `, and an instruction with operands in their ranges, or `.byte` \
    and two capital hexadecimal digits; it ends with LF",
    "all bytes of a line lie in flash, and the address of an instruction is even",
    "this line begins before the end of the line before it",
];

/// What each undefined point is, by its number. The first row is point 1, and the last one is met by no program of a build.
pub static POINTS: [&str; 16] = [
    "the divisor is 0 (C99 6.5.5)",
    "the count of a shift is negative, or not below the width of the left operand in bits (C99 6.5.7)",
    "a fixed-point result lies outside its type, which does not saturate: write `_Sat`, or bring the operands into range \
    (Embedded C 4.1.3)",
    "the whole part of a fixed-point value does not fit the integer type (Embedded C 4.1.3)",
    "nothing of this type lives here: the pointer is null, the index leaves its array, or the object's block or function \
    has ended (C99 6.5.3.2, 6.2.4)",
    "a local or a named register is read before it is set, or a pointer whose object lives no more (C99 6.2.4, 6.7.8)",
    "what is const or in flash is written (C99 6.7.3)",
    "a pointer is narrowed to a space in which its object does not stand (Embedded C 5.1.3)",
    "two pointers are ordered or subtracted that are not into one object, or not a whole number of elements apart (C99 \
    6.5.6, 6.5.8)",
    "a pointer past the end of an object is compared with one into another, or a pointer is used whose object lives no \
    more (C99 6.5.9, 6.2.4)",
    "a pointer is moved out of its object, where the place behind its end is allowed, or from null (C99 6.5.6)",
    "a port is accessed whose group is not acquired, or whose dynamic group is bound to a group that is not (Embedded C 6.3)",
    "the index of a port is not below the port's count (Embedded C 6.3)",
    "a function with a result, other than `main`, ends without `return` (C99 6.9.1)",
    "a port is accessed whose dynamic group is not bound, or such a dynamic group is acquired or released: bind it before by \
    `iogroup_map` (Embedded C 6.3)",
    "the typed program is not valid",
];

/// What is told of a loop that is not counted.
pub static UNCOUNTED: &str =
    "the text does not tell how many turns this loop makes: a counted loop is a `for` over a local `int` from one constant to \
    another in steps of a constant, which nothing else in it changes and whose address is nowhere taken";

/// What each limit counts, by its number. The first row is limit 1.
pub static COUNTED: [&str; 10] = [
    "sources",
    "bytes in a source",
    "bytes in the map",
    "bytes in the HEX file",
    "bytes in the script",
    "tokens in a source",
    "constructs one inside the other",
    "objects",
    "functions",
    "bytes in the listing",
];

/// The lines about the tool that are always the same, and what is said of each.
pub static TOOL_LINES: [(&str, &str); 6] = [
    (
        "usage",
        "the words are `build MAP OUT SRC...`, `run HEX SCRIPT STEPS FILL`, `exec MAP SCRIPT STEPS SRC...`, `gen N`, \
         `bound MAP SRC...`, `watch MAP SCRIPT STEPS NAME LEAF OP VALUE SRC...`, `list CORE HEX` or `assemble CORE ASM OUT`",
    ),
    (
        "cannot write",
        "the output could not be created or wholly written",
    ),
    ("no memory", "memory ran out"),
    ("steps out", "the machine made all its steps and still runs"),
    ("turns out", "a loop made all its turns and still goes on"),
    (
        "bound too large",
        "the number of steps passes 18446744073709551615",
    ),
];

/// Those about the map.
pub static MAP_LINES: [(&str, &str); 1] = [("map: not TOML", "the map is no TOML document")];

/// Those about the HEX file.
pub static HEX_LINES: [(&str, &str); 1] = [(
    "hex: no end",
    "no line is the end record `:00000001FF`",
)];

/// How the other lines begin.
pub static HEADS: [(&str, Kind); 13] = [
    ("cannot read ", Kind::CannotRead),
    ("recursion ", Kind::Recursion),
    ("map: rule ", Kind::MapRule),
    ("region ", Kind::Region),
    ("no object ", Kind::NoObject),
    ("no number ", Kind::NoNumber),
    ("clash ", Kind::Clash),
    ("limit ", Kind::Limit),
    ("hex line ", Kind::HexLine),
    ("script line ", Kind::ScriptLine),
    ("script port ", Kind::ScriptPort),
    ("asm line ", Kind::ListingLine),
    ("fault ", Kind::Fault),
];

/// What is wrong with a record (the published Intel HEX format).
pub static RECORDS: [(&str, &str); 4] = [
    (
        "bad record",
        "a record is `:`, then pairs of hexadecimal digits: the number of data bytes, the address, a type from \
        00 to 05, the data, the sum",
    ),
    (
        "bad sum",
        "the bytes of a record, its last one included, add up to 0 modulo 256",
    ),
    (
        "out of flash",
        "a byte of this record lies past the flash, which has 32768 bytes on the core small and 131072 on the core large",
    ),
    (
        "twice",
        "an earlier record has a byte at an address of this one",
    ),
];

/// Why the machine stopped at an instruction.
pub static MACHINE: [(&str, &str); 4] = [
    ("unsupported", "is no instruction of the table"),
    ("pc", "lies past the flash"),
    (
        "data",
        "loads or stores past the data memory, or reads past the flash",
    ),
    ("stack", "pushes or pops where there is no SRAM"),
];

/// What is told of a token with which no program goes on, where no more is known of it.
pub static SYNTAX: &str = "with this token no program goes on (C99 6.5 to 6.9)";
