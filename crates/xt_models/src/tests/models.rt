//! Models of a few items.

/// Items that are written as they stand.
pub const SAME: &[&str] = &[
    "",
    "var bool: b;\n",
    "var 0..1: x;\n",
    "var 5..5: x;\n",
    "var {1,3}: x;\n",
    "var {-1,3,7}: x :: output_var;\n",
    "var bool: X_INTRODUCED_0_ :: output_var;\n",
    "var bool: b = true;\n",
    "var 0..9: x = 3;\n",
    "var 0..9: x;\nvar 0..9: y :: output_var = x;\n",
    "var -85070591730234615865843651857942052863..85070591730234615865843651857942052863: x;\n",
    "var {0,85070591730234615865843651857942052863}: x;\n",
    "array [1..2] of var int: a :: output_array([1..2]) = [1,-2];\n",
    "array [1..1] of var int: a :: output_array([1..1,1..1,5..5]) = [3];\n",
    "var bool: b;\narray [1..4] of var bool: a :: output_array([1..2,0..1]) = [b,true,false,b];\n",
];

/// Texts, and how they are written.
pub const REWRITTEN: &[(&str, &str)] = &[
    // Domains: pieces are sorted and joined; integers by their value.
    (
        "var {3,1,1,2}: x;solve satisfy;",
        "var 1..3: x;\nsolve satisfy;\n",
    ),
    (
        "var {9,0x1,4}: x;solve satisfy;",
        "var {1,4,9}: x;\nsolve satisfy;\n",
    ),
    (
        "var 0x0..0x1F: x;solve satisfy;",
        "var 0..31: x;\nsolve satisfy;\n",
    ),
    (
        "var -0o17..00: x;solve satisfy;",
        "var -15..0: x;\nsolve satisfy;\n",
    ),
    // Annotations: those of what is shown are kept.
    (
        "var 0..3: x :: is_defined_var :: output_var;solve satisfy;",
        "var 0..3: x :: output_var;\nsolve satisfy;\n",
    ),
    (
        "var 0..3: x :: output_var();solve satisfy;",
        "var 0..3: x;\nsolve satisfy;\n",
    ),
    (
        "array [1..2] of var int: x :: output_array([0..1,3..3]) :: output_array([1..3]) = [1,2];solve satisfy;",
        "array [1..2] of var int: x :: output_array([0..1,3..3]) = [1,2];\nsolve satisfy;\n",
    ),
    (
        "array [1..0] of var int: a :: output_array([]) = [];solve satisfy;",
        "solve satisfy;\n",
    ),
    (
        "array [1..0] of var int: a :: output_array([1..0]) = [];solve satisfy;",
        "solve satisfy;\n",
    ),
    (
        "var 0..1: x;constraint int_le(x,0) :: domain :: defines_var(x);solve satisfy;",
        "var 0..1: x;\nconstraint int_le(x,0);\nsolve satisfy;\n",
    ),
    // Values of parameters stand for them.
    (
        "int: n = 4;var 0..9: x = n;solve satisfy;",
        "var 0..9: x = 4;\nsolve satisfy;\n",
    ),
    (
        "bool: t = false;var bool: b = t;constraint bool_eq(t,b);solve satisfy;",
        "var bool: b = false;\nconstraint bool_eq(false,b);\nsolve satisfy;\n",
    ),
    (
        "set of int: s = 1..3;constraint set_in(2,s);solve satisfy;",
        "constraint set_in(2,1..3);\nsolve satisfy;\n",
    ),
    (
        "set of int: s = {3,1,3};set of int: t = s;constraint set_in(1,t);solve satisfy;",
        "constraint set_in(1,{3,1,3});\nsolve satisfy;\n",
    ),
    (
        "constraint set_in(1,5..2);constraint set_in(1,5..5);solve satisfy;",
        "constraint set_in(1,{});\nconstraint set_in(1,5..5);\nsolve satisfy;\n",
    ),
    (
        "array [1..2] of int: p = [1,0x10];array [1..2] of int: q = p;int: n = q[2];constraint int_lin_eq(q,p,n);solve satisfy;",
        "constraint int_lin_eq([1,16],[1,16],16);\nsolve satisfy;\n",
    ),
    (
        "array [1..2] of bool: p = [true,false];constraint array_bool_and(p,p[2]);solve satisfy;",
        "constraint array_bool_and([true,false],false);\nsolve satisfy;\n",
    ),
    (
        "array [1..0] of int: p = [];constraint int_lin_le(p,p,0);solve satisfy;",
        "constraint int_lin_le([],[],0);\nsolve satisfy;\n",
    ),
    // Arrays that are not shown are replaced by their members.
    (
        "var 0..1: x;array [1..2] of var 7..3: a = [x,7];constraint int_lin_eq([1,-1],a,0);constraint int_le(a[2],a[1]);solve satisfy;",
        "var 0..1: x;\nconstraint int_lin_eq([1,-1],[x,7],0);\nconstraint int_le(7,x);\nsolve satisfy;\n",
    ),
    (
        "var 0..1: x;array [1..1] of var int: a :: output_array([1..1]) = [x];solve minimize a[1];",
        "var 0..1: x;\narray [1..1] of var int: a :: output_array([1..1]) = [x];\nsolve minimize x;\n",
    ),
    // Goals, comments and whitespace.
    (
        "var 0..1: x;solve maximize x;",
        "var 0..1: x;\nsolve maximize x;\n",
    ),
    (
        "solve :: int_search([],a,b(1.5e3,\"c\")) satisfy;",
        "solve satisfy;\n",
    ),
    (
        "% nothing\n solve\tsatisfy\r\n; % at the end",
        "solve satisfy;\n",
    ),
    (
        "predicate p(var int: x, [ 1.5);solve satisfy;",
        "solve satisfy;\n",
    ),
    (
        "var 1..1: float;solve minimize float;",
        "var 1..1: float;\nsolve minimize float;\n",
    ),
];

/// A call of each builtin, as it stands.
pub const CALLS: &[&str] = &[
    "int_lin_eq([1,-1],[x,4],0)",
    "int_lin_ne([2],[x],3)",
    "int_lin_le([],[],-1)",
    "int_lin_eq_reif([1,1],[x,x],5,b)",
    "int_lin_ne_reif([1],[x],5,true)",
    "int_lin_le_reif([1],[y],5,c)",
    "int_eq(x,y)",
    "int_ne(x,3)",
    "int_le(3,x)",
    "int_lt(x,y)",
    "int_eq_reif(x,y,b)",
    "int_ne_reif(1,2,b)",
    "int_le_reif(x,y,false)",
    "int_lt_reif(x,y,b)",
    "int_abs(x,y)",
    "int_plus(x,y,z)",
    "int_times(x,y,0)",
    "int_div(x,y,z)",
    "int_mod(x,2,z)",
    "int_min(x,y,z)",
    "int_max(x,y,z)",
    "array_int_minimum(x,[y,z,1])",
    "array_int_maximum(x,[])",
    "array_int_element(x,[4,5],y)",
    "array_var_int_element(x,[y,5],z)",
    "array_bool_element(x,[true,false],b)",
    "array_var_bool_element(x,[b,false],c)",
    "bool2int(b,x)",
    "bool_eq(b,c)",
    "bool_le(b,c)",
    "bool_lt(b,true)",
    "bool_eq_reif(b,c,b)",
    "bool_le_reif(b,c,true)",
    "bool_lt_reif(b,c,false)",
    "bool_not(b,c)",
    "bool_and(b,c,true)",
    "bool_or(b,c,c)",
    "bool_xor(b,c)",
    "bool_xor(b,c,true)",
    "bool_clause([b],[c,true])",
    "bool_clause([],[])",
    "bool_clause_reif([b],[],c)",
    "array_bool_and([b,c],true)",
    "array_bool_or([],b)",
    "array_bool_xor([b,c,true])",
    "bool_lin_eq([2,3],[b,c],x)",
    "bool_lin_le([2,-3],[b,true],4)",
    "set_in(x,0..5)",
    "set_in(x,{})",
    "set_in_reif(x,{3,1,3},b)",
];
