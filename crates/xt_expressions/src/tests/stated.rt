//! Expressions over five variables, with what states them: the lines of the new variables, and then those of the calls.

/// An expression, with the lines that state it.
pub type Stated = (&'static str, &'static str);

/// The declarations of the variables.
pub const FIVE: &str =
    r#"<var id="x"> -2..3 </var><var id="y"> 0..5 </var><var id="z"> 1..4 </var><var id="p"> 0..1 </var><var id="q"> 0..1 </var>"#;

/// The lines of the variables.
pub const FIVE_LINES: &str = "var -2..3: v_x :: output_var;\n\
         var 0..5: v_y :: output_var;\n\
         var 1..4: v_z :: output_var;\n\
         var 0..1: v_p :: output_var;\n\
         var 0..1: v_q :: output_var;\n";

/// Each operator at the root. Comparisons, `and`, `or`, `imp`, `not` and `in` a set of literals are stated by calls of
/// their own, all others by their truth value; a number from 0 to 1 has one too.
pub const STATED: &[Stated] = &[
    ("1", "constraint bool_clause([true],[]);\n"),
    ("0", "constraint bool_clause([false],[]);\n"),
    (
        "p",
        "var bool: a_0;\n\
         constraint bool2int(a_0,v_p);\n\
         constraint bool_clause([a_0],[]);\n",
    ),
    (
        "lt(add(x,y),z)",
        "var -2..8: a_0;\n\
         constraint int_lin_eq([1,1,-1],[v_x,v_y,a_0],0);\n\
         constraint int_lt(a_0,v_z);\n",
    ),
    (
        "le(sub(x,y),-1)",
        "var -7..3: a_0;\n\
         constraint int_lin_eq([1,-1,-1],[v_x,v_y,a_0],0);\n\
         constraint int_le(a_0,-1);\n",
    ),
    (
        "gt(abs(x),sqr(y))",
        "var 0..3: a_0;\n\
         var 0..25: a_1;\n\
         constraint int_abs(v_x,a_0);\n\
         constraint int_times(v_y,v_y,a_1);\n\
         constraint int_lt(a_1,a_0);\n",
    ),
    (
        "ge(dist(x,y),mul(2,z))",
        "var -7..3: a_0;\n\
         var 0..7: a_1;\n\
         var 2..8: a_2;\n\
         constraint int_lin_eq([1,-1,-1],[v_x,v_y,a_0],0);\n\
         constraint int_abs(a_0,a_1);\n\
         constraint int_times(2,v_z,a_2);\n\
         constraint int_le(a_2,a_1);\n",
    ),
    (
        "ne(dist(x,z),1)",
        "var -6..2: a_0;\n\
         var 0..6: a_1;\n\
         constraint int_lin_eq([1,-1,-1],[v_x,v_z,a_0],0);\n\
         constraint int_abs(a_0,a_1);\n\
         constraint int_ne(a_1,1);\n",
    ),
    (
        "eq(div(y,2),mod(z,3))",
        "var 0..2: a_0;\n\
         var 0..2: a_1;\n\
         constraint int_div(v_y,2,a_0);\n\
         constraint int_mod(v_z,3,a_1);\n\
         constraint int_eq(a_0,a_1);\n",
    ),
    (
        "eq(x,min(y,z),2)",
        "var 0..4: a_0;\n\
         constraint array_int_minimum(a_0,[v_y,v_z]);\n\
         constraint int_eq(v_x,a_0);\n\
         constraint int_eq(a_0,2);\n",
    ),
    (
        "eq(max(x,1),p,neg(q),x)",
        "var 1..3: a_0;\n\
         var -1..0: a_1;\n\
         constraint array_int_maximum(a_0,[v_x,1]);\n\
         constraint int_lin_eq([1,1],[v_q,a_1],0);\n\
         constraint int_eq(a_0,v_p);\n\
         constraint int_eq(v_p,a_1);\n\
         constraint int_eq(a_1,v_x);\n",
    ),
    (
        "in(pow(x,3),set(8,-1,8))",
        "var 0..9: a_0;\n\
         var -8..27: a_1;\n\
         constraint int_times(v_x,v_x,a_0);\n\
         constraint int_times(a_0,v_x,a_1);\n\
         constraint set_in(a_1,{8,-1,8});\n",
    ),
    (
        "in(add(x,1),set())",
        "var -1..4: a_0;\n\
         constraint int_lin_eq([1,1,-1],[v_x,1,a_0],0);\n\
         constraint bool_clause([false],[]);\n",
    ),
    (
        "in(x,set(3,y,sub(z,1)))",
        "var 0..3: a_0;\n\
         var bool: a_1;\n\
         var bool: a_2;\n\
         var bool: a_3;\n\
         var bool: a_4;\n\
         constraint int_lin_eq([1,-1,-1],[v_z,1,a_0],0);\n\
         constraint int_eq_reif(v_x,3,a_1);\n\
         constraint int_eq_reif(v_x,v_y,a_2);\n\
         constraint int_eq_reif(v_x,a_0,a_3);\n\
         constraint array_bool_or([a_1,a_2,a_3],a_4);\n\
         constraint bool_clause([a_4],[]);\n",
    ),
    (
        "in(y,set(pow(3,1)))",
        "var bool: a_0;\n\
         var bool: a_1;\n\
         constraint int_eq_reif(v_y,3,a_0);\n\
         constraint array_bool_or([a_0],a_1);\n\
         constraint bool_clause([a_1],[]);\n",
    ),
    (
        "notin(mul(x,y),set(6,0))",
        "var -10..15: a_0;\n\
         var bool: a_1;\n\
         var bool: a_2;\n\
         constraint int_times(v_x,v_y,a_0);\n\
         constraint set_in_reif(a_0,{6,0},a_1);\n\
         constraint bool_not(a_1,a_2);\n\
         constraint bool_clause([a_2],[]);\n",
    ),
    (
        "notin(x,set())",
        "var bool: a_0;\n\
         constraint bool_not(false,a_0);\n\
         constraint bool_clause([a_0],[]);\n",
    ),
    (
        "notin(x,set(y,2))",
        "var bool: a_0;\n\
         var bool: a_1;\n\
         var bool: a_2;\n\
         var bool: a_3;\n\
         constraint int_eq_reif(v_x,v_y,a_0);\n\
         constraint int_eq_reif(v_x,2,a_1);\n\
         constraint array_bool_or([a_0,a_1],a_2);\n\
         constraint bool_not(a_2,a_3);\n\
         constraint bool_clause([a_3],[]);\n",
    ),
    (
        "not(lt(x,y))",
        "var bool: a_0;\n\
         constraint int_lt_reif(v_x,v_y,a_0);\n\
         constraint bool_clause([],[a_0]);\n",
    ),
    (
        "and(le(x,y),p,1)",
        "var bool: a_0;\n\
         constraint int_le(v_x,v_y);\n\
         constraint bool2int(a_0,v_p);\n\
         constraint bool_clause([a_0],[]);\n\
         constraint bool_clause([true],[]);\n",
    ),
    (
        "and(or(p,lt(x,1)),and(ne(x,y),not(q)))",
        "var bool: a_0;\n\
         var bool: a_1;\n\
         var bool: a_2;\n\
         constraint bool2int(a_0,v_p);\n\
         constraint int_lt_reif(v_x,1,a_1);\n\
         constraint bool_clause([a_0,a_1],[]);\n\
         constraint int_ne(v_x,v_y);\n\
         constraint bool2int(a_2,v_q);\n\
         constraint bool_clause([],[a_2]);\n",
    ),
    (
        "or(eq(x,y),gt(x,z),q)",
        "var bool: a_0;\n\
         var bool: a_1;\n\
         var bool: a_2;\n\
         constraint int_eq_reif(v_x,v_y,a_0);\n\
         constraint int_lt_reif(v_z,v_x,a_1);\n\
         constraint bool2int(a_2,v_q);\n\
         constraint bool_clause([a_0,a_1,a_2],[]);\n",
    ),
    (
        "xor(p,ge(x,y),0)",
        "var bool: a_0;\n\
         var bool: a_1;\n\
         var bool: a_2;\n\
         var bool: a_3;\n\
         constraint bool2int(a_0,v_p);\n\
         constraint int_le_reif(v_y,v_x,a_1);\n\
         constraint bool_xor(a_0,a_1,a_2);\n\
         constraint bool_xor(a_2,false,a_3);\n\
         constraint bool_clause([a_3],[]);\n",
    ),
    (
        "iff(p,ne(x,0))",
        "var bool: a_0;\n\
         var bool: a_1;\n\
         var bool: a_2;\n\
         constraint bool2int(a_0,v_p);\n\
         constraint int_ne_reif(v_x,0,a_1);\n\
         constraint bool_eq_reif(a_0,a_1,a_2);\n\
         constraint bool_clause([a_2],[]);\n",
    ),
    (
        "imp(le(x,y),p)",
        "var bool: a_0;\n\
         var bool: a_1;\n\
         constraint int_le_reif(v_x,v_y,a_0);\n\
         constraint bool2int(a_1,v_p);\n\
         constraint bool_clause([a_1],[a_0]);\n",
    ),
    ("imp(1,0)", "constraint bool_clause([false],[true]);\n"),
    ("not(0)", "constraint bool_clause([],[false]);\n"),
    (
        "iff(p,1)",
        "var bool: a_0;\n\
         var bool: a_1;\n\
         constraint bool2int(a_0,v_p);\n\
         constraint bool_eq_reif(a_0,true,a_1);\n\
         constraint bool_clause([a_1],[]);\n",
    ),
    (
        "if(lt(x,y),p,eq(x,z))",
        "var bool: a_0;\n\
         var bool: a_1;\n\
         var 0..1: a_2;\n\
         var 0..1: a_3;\n\
         var 1..2: a_4;\n\
         var 0..1: a_5;\n\
         var bool: a_6;\n\
         constraint int_lt_reif(v_x,v_y,a_0);\n\
         constraint int_eq_reif(v_x,v_z,a_1);\n\
         constraint bool2int(a_1,a_2);\n\
         constraint bool2int(a_0,a_3);\n\
         constraint int_lin_eq([1,1],[a_3,a_4],2);\n\
         constraint array_var_int_element(a_4,[v_p,a_2],a_5);\n\
         constraint bool2int(a_6,a_5);\n\
         constraint bool_clause([a_6],[]);\n",
    ),
    (
        "neg(add(p,-1))",
        "var -1..0: a_0;\n\
         var 0..1: a_1;\n\
         var bool: a_2;\n\
         constraint int_lin_eq([1,1,-1],[v_p,-1,a_0],0);\n\
         constraint int_lin_eq([1,1],[a_0,a_1],0);\n\
         constraint bool2int(a_2,a_1);\n\
         constraint bool_clause([a_2],[]);\n",
    ),
    (
        "abs(sub(p,q))",
        "var -1..1: a_0;\n\
         var 0..1: a_1;\n\
         var bool: a_2;\n\
         constraint int_lin_eq([1,-1,-1],[v_p,v_q,a_0],0);\n\
         constraint int_abs(a_0,a_1);\n\
         constraint bool2int(a_2,a_1);\n\
         constraint bool_clause([a_2],[]);\n",
    ),
    (
        "sqr(min(p,q))",
        "var 0..1: a_0;\n\
         var 0..1: a_1;\n\
         var bool: a_2;\n\
         constraint array_int_minimum(a_0,[v_p,v_q]);\n\
         constraint int_times(a_0,a_0,a_1);\n\
         constraint bool2int(a_2,a_1);\n\
         constraint bool_clause([a_2],[]);\n",
    ),
    (
        "add(mul(p,q),0)",
        "var 0..1: a_0;\n\
         var 0..1: a_1;\n\
         var bool: a_2;\n\
         constraint int_times(v_p,v_q,a_0);\n\
         constraint int_lin_eq([1,1,-1],[a_0,0,a_1],0);\n\
         constraint bool2int(a_2,a_1);\n\
         constraint bool_clause([a_2],[]);\n",
    ),
    (
        "mul(p,lt(x,2),q)",
        "var bool: a_0;\n\
         var 0..1: a_1;\n\
         var 0..1: a_2;\n\
         var 0..1: a_3;\n\
         var bool: a_4;\n\
         constraint int_lt_reif(v_x,2,a_0);\n\
         constraint bool2int(a_0,a_1);\n\
         constraint int_times(v_p,a_1,a_2);\n\
         constraint int_times(a_2,v_q,a_3);\n\
         constraint bool2int(a_4,a_3);\n\
         constraint bool_clause([a_4],[]);\n",
    ),
    (
        "sub(1,max(p,q))",
        "var 0..1: a_0;\n\
         var 0..1: a_1;\n\
         var bool: a_2;\n\
         constraint array_int_maximum(a_0,[v_p,v_q]);\n\
         constraint int_lin_eq([1,-1,-1],[1,a_0,a_1],0);\n\
         constraint bool2int(a_2,a_1);\n\
         constraint bool_clause([a_2],[]);\n",
    ),
    (
        "dist(p,mod(y,2))",
        "var 0..1: a_0;\n\
         var -1..1: a_1;\n\
         var 0..1: a_2;\n\
         var bool: a_3;\n\
         constraint int_mod(v_y,2,a_0);\n\
         constraint int_lin_eq([1,-1,-1],[v_p,a_0,a_1],0);\n\
         constraint int_abs(a_1,a_2);\n\
         constraint bool2int(a_3,a_2);\n\
         constraint bool_clause([a_3],[]);\n",
    ),
    (
        "div(add(y,1),6)",
        "var 1..6: a_0;\n\
         var 0..1: a_1;\n\
         var bool: a_2;\n\
         constraint int_lin_eq([1,1,-1],[v_y,1,a_0],0);\n\
         constraint int_div(a_0,6,a_1);\n\
         constraint bool2int(a_2,a_1);\n\
         constraint bool_clause([a_2],[]);\n",
    ),
    (
        "mod(sqr(x),2)",
        "var 0..9: a_0;\n\
         var 0..1: a_1;\n\
         var bool: a_2;\n\
         constraint int_times(v_x,v_x,a_0);\n\
         constraint int_mod(a_0,2,a_1);\n\
         constraint bool2int(a_2,a_1);\n\
         constraint bool_clause([a_2],[]);\n",
    ),
    (
        "pow(dist(p,q),3)",
        "var -1..1: a_0;\n\
         var 0..1: a_1;\n\
         var 0..1: a_2;\n\
         var 0..1: a_3;\n\
         var bool: a_4;\n\
         constraint int_lin_eq([1,-1,-1],[v_p,v_q,a_0],0);\n\
         constraint int_abs(a_0,a_1);\n\
         constraint int_times(a_1,a_1,a_2);\n\
         constraint int_times(a_2,a_1,a_3);\n\
         constraint bool2int(a_4,a_3);\n\
         constraint bool_clause([a_4],[]);\n",
    ),
    (
        "min(p,div(y,5),1)",
        "var 0..1: a_0;\n\
         var 0..1: a_1;\n\
         var bool: a_2;\n\
         constraint int_div(v_y,5,a_0);\n\
         constraint array_int_minimum(a_1,[v_p,a_0,1]);\n\
         constraint bool2int(a_2,a_1);\n\
         constraint bool_clause([a_2],[]);\n",
    ),
    (
        "max(pow(p,1),q)",
        "var 0..1: a_0;\n\
         var bool: a_1;\n\
         constraint array_int_maximum(a_0,[v_p,v_q]);\n\
         constraint bool2int(a_1,a_0);\n\
         constraint bool_clause([a_1],[]);\n",
    ),
];

/// Each operator as the truth value that a logic operator takes.
pub const TRUTHS: &[Stated] = &[
    (
        "or(0,1,p)",
        "var bool: a_0;\n\
         constraint bool2int(a_0,v_p);\n\
         constraint bool_clause([false,true,a_0],[]);\n",
    ),
    (
        "not(and(p,gt(x,y)))",
        "var bool: a_0;\n\
         var bool: a_1;\n\
         var bool: a_2;\n\
         constraint bool2int(a_0,v_p);\n\
         constraint int_lt_reif(v_y,v_x,a_1);\n\
         constraint array_bool_and([a_0,a_1],a_2);\n\
         constraint bool_clause([],[a_2]);\n",
    ),
    (
        "xor(or(p,q),ne(x,y))",
        "var bool: a_0;\n\
         var bool: a_1;\n\
         var bool: a_2;\n\
         var bool: a_3;\n\
         var bool: a_4;\n\
         constraint bool2int(a_0,v_p);\n\
         constraint bool2int(a_1,v_q);\n\
         constraint array_bool_or([a_0,a_1],a_2);\n\
         constraint int_ne_reif(v_x,v_y,a_3);\n\
         constraint bool_xor(a_2,a_3,a_4);\n\
         constraint bool_clause([a_4],[]);\n",
    ),
    (
        "iff(xor(p,q,1),le(x,y))",
        "var bool: a_0;\n\
         var bool: a_1;\n\
         var bool: a_2;\n\
         var bool: a_3;\n\
         var bool: a_4;\n\
         var bool: a_5;\n\
         constraint bool2int(a_0,v_p);\n\
         constraint bool2int(a_1,v_q);\n\
         constraint bool_xor(a_0,a_1,a_2);\n\
         constraint bool_xor(a_2,true,a_3);\n\
         constraint int_le_reif(v_x,v_y,a_4);\n\
         constraint bool_eq_reif(a_3,a_4,a_5);\n\
         constraint bool_clause([a_5],[]);\n",
    ),
    (
        "imp(iff(p,q),lt(x,0))",
        "var bool: a_0;\n\
         var bool: a_1;\n\
         var bool: a_2;\n\
         var bool: a_3;\n\
         constraint bool2int(a_0,v_p);\n\
         constraint bool2int(a_1,v_q);\n\
         constraint bool_eq_reif(a_0,a_1,a_2);\n\
         constraint int_lt_reif(v_x,0,a_3);\n\
         constraint bool_clause([a_3],[a_2]);\n",
    ),
    (
        "or(imp(p,q),ge(x,2))",
        "var bool: a_0;\n\
         var bool: a_1;\n\
         var bool: a_2;\n\
         var bool: a_3;\n\
         constraint bool2int(a_0,v_p);\n\
         constraint bool2int(a_1,v_q);\n\
         constraint bool_le_reif(a_0,a_1,a_2);\n\
         constraint int_le_reif(2,v_x,a_3);\n\
         constraint bool_clause([a_2,a_3],[]);\n",
    ),
    (
        "or(not(p),and(q,not(eq(x,y))))",
        "var bool: a_0;\n\
         var bool: a_1;\n\
         var bool: a_2;\n\
         var bool: a_3;\n\
         var bool: a_4;\n\
         var bool: a_5;\n\
         constraint bool2int(a_0,v_p);\n\
         constraint bool_not(a_0,a_1);\n\
         constraint bool2int(a_2,v_q);\n\
         constraint int_eq_reif(v_x,v_y,a_3);\n\
         constraint bool_not(a_3,a_4);\n\
         constraint array_bool_and([a_2,a_4],a_5);\n\
         constraint bool_clause([a_1,a_5],[]);\n",
    ),
    (
        "not(eq(x,y,z))",
        "var bool: a_0;\n\
         var bool: a_1;\n\
         var bool: a_2;\n\
         constraint int_eq_reif(v_x,v_y,a_0);\n\
         constraint int_eq_reif(v_y,v_z,a_1);\n\
         constraint array_bool_and([a_0,a_1],a_2);\n\
         constraint bool_clause([],[a_2]);\n",
    ),
    (
        "imp(p,in(add(x,1),set(0,2)))",
        "var bool: a_0;\n\
         var -1..4: a_1;\n\
         var bool: a_2;\n\
         constraint bool2int(a_0,v_p);\n\
         constraint int_lin_eq([1,1,-1],[v_x,1,a_1],0);\n\
         constraint set_in_reif(a_1,{0,2},a_2);\n\
         constraint bool_clause([a_2],[a_0]);\n",
    ),
    (
        "or(in(x,set()),p)",
        "var bool: a_0;\n\
         constraint bool2int(a_0,v_p);\n\
         constraint bool_clause([false,a_0],[]);\n",
    ),
    (
        "not(in(z,set(x,4)))",
        "var bool: a_0;\n\
         var bool: a_1;\n\
         var bool: a_2;\n\
         constraint int_eq_reif(v_z,v_x,a_0);\n\
         constraint int_eq_reif(v_z,4,a_1);\n\
         constraint array_bool_or([a_0,a_1],a_2);\n\
         constraint bool_clause([],[a_2]);\n",
    ),
    (
        "xor(notin(x,set(1)),notin(y,set()))",
        "var bool: a_0;\n\
         var bool: a_1;\n\
         var bool: a_2;\n\
         var bool: a_3;\n\
         constraint set_in_reif(v_x,{1},a_0);\n\
         constraint bool_not(a_0,a_1);\n\
         constraint bool_not(false,a_2);\n\
         constraint bool_xor(a_1,a_2,a_3);\n\
         constraint bool_clause([a_3],[]);\n",
    ),
    (
        "iff(notin(x,set(y)),q)",
        "var bool: a_0;\n\
         var bool: a_1;\n\
         var bool: a_2;\n\
         var bool: a_3;\n\
         var bool: a_4;\n\
         constraint int_eq_reif(v_x,v_y,a_0);\n\
         constraint array_bool_or([a_0],a_1);\n\
         constraint bool_not(a_1,a_2);\n\
         constraint bool2int(a_3,v_q);\n\
         constraint bool_eq_reif(a_2,a_3,a_4);\n\
         constraint bool_clause([a_4],[]);\n",
    ),
    (
        "not(if(p,q,0))",
        "var bool: a_0;\n\
         var 0..1: a_1;\n\
         var 1..2: a_2;\n\
         var 0..1: a_3;\n\
         var bool: a_4;\n\
         constraint bool2int(a_0,v_p);\n\
         constraint bool2int(a_0,a_1);\n\
         constraint int_lin_eq([1,1],[a_1,a_2],2);\n\
         constraint array_var_int_element(a_2,[v_q,0],a_3);\n\
         constraint bool2int(a_4,a_3);\n\
         constraint bool_clause([],[a_4]);\n",
    ),
    (
        "or(neg(sub(p,1)),q)",
        "var -1..0: a_0;\n\
         var 0..1: a_1;\n\
         var bool: a_2;\n\
         var bool: a_3;\n\
         constraint int_lin_eq([1,-1,-1],[v_p,1,a_0],0);\n\
         constraint int_lin_eq([1,1],[a_0,a_1],0);\n\
         constraint bool2int(a_2,a_1);\n\
         constraint bool2int(a_3,v_q);\n\
         constraint bool_clause([a_2,a_3],[]);\n",
    ),
    (
        "not(abs(p))",
        "var 0..1: a_0;\n\
         var bool: a_1;\n\
         constraint int_abs(v_p,a_0);\n\
         constraint bool2int(a_1,a_0);\n\
         constraint bool_clause([],[a_1]);\n",
    ),
    (
        "imp(sqr(p),q)",
        "var 0..1: a_0;\n\
         var bool: a_1;\n\
         var bool: a_2;\n\
         constraint int_times(v_p,v_p,a_0);\n\
         constraint bool2int(a_1,a_0);\n\
         constraint bool2int(a_2,v_q);\n\
         constraint bool_clause([a_2],[a_1]);\n",
    ),
    (
        "xor(add(p,0,0),q)",
        "var 0..1: a_0;\n\
         var bool: a_1;\n\
         var bool: a_2;\n\
         var bool: a_3;\n\
         constraint int_lin_eq([1,1,1,-1],[v_p,0,0,a_0],0);\n\
         constraint bool2int(a_1,a_0);\n\
         constraint bool2int(a_2,v_q);\n\
         constraint bool_xor(a_1,a_2,a_3);\n\
         constraint bool_clause([a_3],[]);\n",
    ),
    (
        "iff(mul(p,q),gt(y,x))",
        "var 0..1: a_0;\n\
         var bool: a_1;\n\
         var bool: a_2;\n\
         var bool: a_3;\n\
         constraint int_times(v_p,v_q,a_0);\n\
         constraint bool2int(a_1,a_0);\n\
         constraint int_lt_reif(v_x,v_y,a_2);\n\
         constraint bool_eq_reif(a_1,a_2,a_3);\n\
         constraint bool_clause([a_3],[]);\n",
    ),
    (
        "or(sub(1,p),sub(1,q))",
        "var 0..1: a_0;\n\
         var bool: a_1;\n\
         var 0..1: a_2;\n\
         var bool: a_3;\n\
         constraint int_lin_eq([1,-1,-1],[1,v_p,a_0],0);\n\
         constraint bool2int(a_1,a_0);\n\
         constraint int_lin_eq([1,-1,-1],[1,v_q,a_2],0);\n\
         constraint bool2int(a_3,a_2);\n\
         constraint bool_clause([a_1,a_3],[]);\n",
    ),
    (
        "not(dist(p,q))",
        "var -1..1: a_0;\n\
         var 0..1: a_1;\n\
         var bool: a_2;\n\
         constraint int_lin_eq([1,-1,-1],[v_p,v_q,a_0],0);\n\
         constraint int_abs(a_0,a_1);\n\
         constraint bool2int(a_2,a_1);\n\
         constraint bool_clause([],[a_2]);\n",
    ),
    (
        "or(div(z,4),p)",
        "var 0..1: a_0;\n\
         var bool: a_1;\n\
         var bool: a_2;\n\
         constraint int_div(v_z,4,a_0);\n\
         constraint bool2int(a_1,a_0);\n\
         constraint bool2int(a_2,v_p);\n\
         constraint bool_clause([a_1,a_2],[]);\n",
    ),
    (
        "imp(mod(y,2),lt(x,y))",
        "var 0..1: a_0;\n\
         var bool: a_1;\n\
         var bool: a_2;\n\
         constraint int_mod(v_y,2,a_0);\n\
         constraint bool2int(a_1,a_0);\n\
         constraint int_lt_reif(v_x,v_y,a_2);\n\
         constraint bool_clause([a_2],[a_1]);\n",
    ),
    (
        "not(pow(p,2))",
        "var 0..1: a_0;\n\
         var bool: a_1;\n\
         constraint int_times(v_p,v_p,a_0);\n\
         constraint bool2int(a_1,a_0);\n\
         constraint bool_clause([],[a_1]);\n",
    ),
    (
        "or(pow(p,1),q)",
        "var bool: a_0;\n\
         var bool: a_1;\n\
         constraint bool2int(a_0,v_p);\n\
         constraint bool2int(a_1,v_q);\n\
         constraint bool_clause([a_0,a_1],[]);\n",
    ),
    (
        "iff(min(p,q),max(p,q))",
        "var 0..1: a_0;\n\
         var bool: a_1;\n\
         var 0..1: a_2;\n\
         var bool: a_3;\n\
         var bool: a_4;\n\
         constraint array_int_minimum(a_0,[v_p,v_q]);\n\
         constraint bool2int(a_1,a_0);\n\
         constraint array_int_maximum(a_2,[v_p,v_q]);\n\
         constraint bool2int(a_3,a_2);\n\
         constraint bool_eq_reif(a_1,a_3,a_4);\n\
         constraint bool_clause([a_4],[]);\n",
    ),
];
