//! Expressions over five variables whose operands are numbers, with what states them.

use super::stated::Stated;

/// Each operator as the number that a comparison or another operator takes.
pub const NUMBERS: &[Stated] = &[
    (
        "eq(add(neg(x),abs(y),sqr(z)),mul(x,3))",
        "var -3..2: a_0;\n\
         var 0..5: a_1;\n\
         var 1..16: a_2;\n\
         var -2..23: a_3;\n\
         var -6..9: a_4;\n\
         constraint int_lin_eq([1,1],[v_x,a_0],0);\n\
         constraint int_abs(v_y,a_1);\n\
         constraint int_times(v_z,v_z,a_2);\n\
         constraint int_lin_eq([1,1,1,-1],[a_0,a_1,a_2,a_3],0);\n\
         constraint int_times(v_x,3,a_4);\n\
         constraint int_eq(a_3,a_4);\n",
    ),
    (
        "lt(mul(sub(x,y),dist(y,z),2),-3)",
        "var -7..3: a_0;\n\
         var -4..4: a_1;\n\
         var 0..4: a_2;\n\
         var -28..12: a_3;\n\
         var -56..24: a_4;\n\
         constraint int_lin_eq([1,-1,-1],[v_x,v_y,a_0],0);\n\
         constraint int_lin_eq([1,-1,-1],[v_y,v_z,a_1],0);\n\
         constraint int_abs(a_1,a_2);\n\
         constraint int_times(a_0,a_2,a_3);\n\
         constraint int_times(a_3,2,a_4);\n\
         constraint int_lt(a_4,-3);\n",
    ),
    (
        "le(div(mul(y,z),add(mod(y,3),1)),6)",
        "var 0..20: a_0;\n\
         var 0..2: a_1;\n\
         var 1..3: a_2;\n\
         var 0..20: a_3;\n\
         constraint int_times(v_y,v_z,a_0);\n\
         constraint int_mod(v_y,3,a_1);\n\
         constraint int_lin_eq([1,1,-1],[a_1,1,a_2],0);\n\
         constraint int_div(a_0,a_2,a_3);\n\
         constraint int_le(a_3,6);\n",
    ),
    (
        "ge(mod(div(y,2),z),pow(min(x,2),2))",
        "var 0..2: a_0;\n\
         var 0..2: a_1;\n\
         var -2..2: a_2;\n\
         var 0..4: a_3;\n\
         constraint int_div(v_y,2,a_0);\n\
         constraint int_mod(a_0,v_z,a_1);\n\
         constraint array_int_minimum(a_2,[v_x,2]);\n\
         constraint int_times(a_2,a_2,a_3);\n\
         constraint int_le(a_3,a_1);\n",
    ),
    (
        "ne(max(neg(x),pow(x,4)),min(abs(x),1))",
        "var -3..2: a_0;\n\
         var 0..9: a_1;\n\
         var -8..27: a_2;\n\
         var 0..81: a_3;\n\
         var 0..81: a_4;\n\
         var 0..3: a_5;\n\
         var 0..1: a_6;\n\
         constraint int_lin_eq([1,1],[v_x,a_0],0);\n\
         constraint int_times(v_x,v_x,a_1);\n\
         constraint int_times(a_1,v_x,a_2);\n\
         constraint int_times(a_2,v_x,a_3);\n\
         constraint array_int_maximum(a_4,[a_0,a_3]);\n\
         constraint int_abs(v_x,a_5);\n\
         constraint array_int_minimum(a_6,[a_5,1]);\n\
         constraint int_ne(a_4,a_6);\n",
    ),
    (
        "eq(dist(sqr(x),neg(y)),abs(sub(div(z,2),max(x,y))))",
        "var 0..9: a_0;\n\
         var -5..0: a_1;\n\
         var 0..14: a_2;\n\
         var 0..14: a_3;\n\
         var 0..2: a_4;\n\
         var 0..5: a_5;\n\
         var -5..2: a_6;\n\
         var 0..5: a_7;\n\
         constraint int_times(v_x,v_x,a_0);\n\
         constraint int_lin_eq([1,1],[v_y,a_1],0);\n\
         constraint int_lin_eq([1,-1,-1],[a_0,a_1,a_2],0);\n\
         constraint int_abs(a_2,a_3);\n\
         constraint int_div(v_z,2,a_4);\n\
         constraint array_int_maximum(a_5,[v_x,v_y]);\n\
         constraint int_lin_eq([1,-1,-1],[a_4,a_5,a_6],0);\n\
         constraint int_abs(a_6,a_7);\n\
         constraint int_eq(a_3,a_7);\n",
    ),
    (
        "le(mul(x,x,x),10)",
        "var -6..9: a_0;\n\
         var -18..27: a_1;\n\
         constraint int_times(v_x,v_x,a_0);\n\
         constraint int_times(a_0,v_x,a_1);\n\
         constraint int_le(a_1,10);\n",
    ),
    (
        "ge(pow(neg(z),3),x)",
        "var -4..-1: a_0;\n\
         var 1..16: a_1;\n\
         var -64..-1: a_2;\n\
         constraint int_lin_eq([1,1],[v_z,a_0],0);\n\
         constraint int_times(a_0,a_0,a_1);\n\
         constraint int_times(a_1,a_0,a_2);\n\
         constraint int_le(v_x,a_2);\n",
    ),
    (
        "eq(pow(add(x,y),1),pow(x,2))",
        "var -2..8: a_0;\n\
         var 0..9: a_1;\n\
         constraint int_lin_eq([1,1,-1],[v_x,v_y,a_0],0);\n\
         constraint int_times(v_x,v_x,a_1);\n\
         constraint int_eq(a_0,a_1);\n",
    ),
    (
        "lt(abs(neg(z)),sqr(neg(z)))",
        "var -4..-1: a_0;\n\
         var 1..4: a_1;\n\
         var -4..-1: a_2;\n\
         var 1..16: a_3;\n\
         constraint int_lin_eq([1,1],[v_z,a_0],0);\n\
         constraint int_abs(a_0,a_1);\n\
         constraint int_lin_eq([1,1],[v_z,a_2],0);\n\
         constraint int_times(a_2,a_2,a_3);\n\
         constraint int_lt(a_1,a_3);\n",
    ),
    (
        "gt(div(add(y,7),z),mod(add(y,1),7))",
        "var 7..12: a_0;\n\
         var 1..12: a_1;\n\
         var 1..6: a_2;\n\
         var 0..6: a_3;\n\
         constraint int_lin_eq([1,1,-1],[v_y,7,a_0],0);\n\
         constraint int_div(a_0,v_z,a_1);\n\
         constraint int_lin_eq([1,1,-1],[v_y,1,a_2],0);\n\
         constraint int_mod(a_2,7,a_3);\n\
         constraint int_lt(a_3,a_1);\n",
    ),
    (
        "eq(min(x,y,z,2),max(p,-1,q))",
        "var -2..2: a_0;\n\
         var 0..1: a_1;\n\
         constraint array_int_minimum(a_0,[v_x,v_y,v_z,2]);\n\
         constraint array_int_maximum(a_1,[v_p,-1,v_q]);\n\
         constraint int_eq(a_0,a_1);\n",
    ),
    (
        "eq(add(2,3),dist(2,7),x)",
        "var 5..5: a_0;\n\
         var -5..-5: a_1;\n\
         var 5..5: a_2;\n\
         constraint int_lin_eq([1,1,-1],[2,3,a_0],0);\n\
         constraint int_lin_eq([1,-1,-1],[2,7,a_1],0);\n\
         constraint int_abs(a_1,a_2);\n\
         constraint int_eq(a_0,a_2);\n\
         constraint int_eq(a_2,v_x);\n",
    ),
    (
        "lt(mul(x,10000000000000000000000),y)",
        "var -20000000000000000000000..30000000000000000000000: a_0;\n\
         constraint int_times(v_x,10000000000000000000000,a_0);\n\
         constraint int_lt(a_0,v_y);\n",
    ),
    (
        "in(add(x,y),set(mul(y,2),pow(3,1),-4))",
        "var -2..8: a_0;\n\
         var 0..10: a_1;\n\
         var bool: a_2;\n\
         var bool: a_3;\n\
         var bool: a_4;\n\
         var bool: a_5;\n\
         constraint int_lin_eq([1,1,-1],[v_x,v_y,a_0],0);\n\
         constraint int_times(v_y,2,a_1);\n\
         constraint int_eq_reif(a_0,a_1,a_2);\n\
         constraint int_eq_reif(a_0,3,a_3);\n\
         constraint int_eq_reif(a_0,-4,a_4);\n\
         constraint array_bool_or([a_2,a_3,a_4],a_5);\n\
         constraint bool_clause([a_5],[]);\n",
    ),
    (
        "eq(add(lt(x,y),le(y,x)),1)",
        "var bool: a_0;\n\
         var 0..1: a_1;\n\
         var bool: a_2;\n\
         var 0..1: a_3;\n\
         var 0..2: a_4;\n\
         constraint int_lt_reif(v_x,v_y,a_0);\n\
         constraint bool2int(a_0,a_1);\n\
         constraint int_le_reif(v_y,v_x,a_2);\n\
         constraint bool2int(a_2,a_3);\n\
         constraint int_lin_eq([1,1,-1],[a_1,a_3,a_4],0);\n\
         constraint int_eq(a_4,1);\n",
    ),
    (
        "ge(sub(gt(x,y),ge(y,z)),0)",
        "var bool: a_0;\n\
         var 0..1: a_1;\n\
         var bool: a_2;\n\
         var 0..1: a_3;\n\
         var -1..1: a_4;\n\
         constraint int_lt_reif(v_y,v_x,a_0);\n\
         constraint bool2int(a_0,a_1);\n\
         constraint int_le_reif(v_z,v_y,a_2);\n\
         constraint bool2int(a_2,a_3);\n\
         constraint int_lin_eq([1,-1,-1],[a_1,a_3,a_4],0);\n\
         constraint int_le(0,a_4);\n",
    ),
    (
        "le(mul(ne(x,1),y),eq(x,y))",
        "var bool: a_0;\n\
         var 0..1: a_1;\n\
         var 0..5: a_2;\n\
         var bool: a_3;\n\
         var 0..1: a_4;\n\
         constraint int_ne_reif(v_x,1,a_0);\n\
         constraint bool2int(a_0,a_1);\n\
         constraint int_times(a_1,v_y,a_2);\n\
         constraint int_eq_reif(v_x,v_y,a_3);\n\
         constraint bool2int(a_3,a_4);\n\
         constraint int_le(a_2,a_4);\n",
    ),
    (
        "gt(x,eq(x,y,0))",
        "var bool: a_0;\n\
         var bool: a_1;\n\
         var bool: a_2;\n\
         var 0..1: a_3;\n\
         constraint int_eq_reif(v_x,v_y,a_0);\n\
         constraint int_eq_reif(v_y,0,a_1);\n\
         constraint array_bool_and([a_0,a_1],a_2);\n\
         constraint bool2int(a_2,a_3);\n\
         constraint int_lt(a_3,v_x);\n",
    ),
    (
        "eq(in(x,set(1,3)),p)",
        "var bool: a_0;\n\
         var 0..1: a_1;\n\
         constraint set_in_reif(v_x,{1,3},a_0);\n\
         constraint bool2int(a_0,a_1);\n\
         constraint int_eq(a_1,v_p);\n",
    ),
    (
        "ne(in(x,set()),p)",
        "var 0..1: a_0;\n\
         constraint bool2int(false,a_0);\n\
         constraint int_ne(a_0,v_p);\n",
    ),
    (
        "lt(in(x,set(y,z)),q)",
        "var bool: a_0;\n\
         var bool: a_1;\n\
         var bool: a_2;\n\
         var 0..1: a_3;\n\
         constraint int_eq_reif(v_x,v_y,a_0);\n\
         constraint int_eq_reif(v_x,v_z,a_1);\n\
         constraint array_bool_or([a_0,a_1],a_2);\n\
         constraint bool2int(a_2,a_3);\n\
         constraint int_lt(a_3,v_q);\n",
    ),
    (
        "eq(max(notin(x,set(2)),p),1)",
        "var bool: a_0;\n\
         var bool: a_1;\n\
         var 0..1: a_2;\n\
         var 0..1: a_3;\n\
         constraint set_in_reif(v_x,{2},a_0);\n\
         constraint bool_not(a_0,a_1);\n\
         constraint bool2int(a_1,a_2);\n\
         constraint array_int_maximum(a_3,[a_2,v_p]);\n\
         constraint int_eq(a_3,1);\n",
    ),
    (
        "eq(add(not(p),x),2)",
        "var bool: a_0;\n\
         var bool: a_1;\n\
         var 0..1: a_2;\n\
         var -2..4: a_3;\n\
         constraint bool2int(a_0,v_p);\n\
         constraint bool_not(a_0,a_1);\n\
         constraint bool2int(a_1,a_2);\n\
         constraint int_lin_eq([1,1,-1],[a_2,v_x,a_3],0);\n\
         constraint int_eq(a_3,2);\n",
    ),
    (
        "le(x,and(p,q))",
        "var bool: a_0;\n\
         var bool: a_1;\n\
         var bool: a_2;\n\
         var 0..1: a_3;\n\
         constraint bool2int(a_0,v_p);\n\
         constraint bool2int(a_1,v_q);\n\
         constraint array_bool_and([a_0,a_1],a_2);\n\
         constraint bool2int(a_2,a_3);\n\
         constraint int_le(v_x,a_3);\n",
    ),
    (
        "eq(neg(or(p,lt(x,y))),-1)",
        "var bool: a_0;\n\
         var bool: a_1;\n\
         var bool: a_2;\n\
         var 0..1: a_3;\n\
         var -1..0: a_4;\n\
         constraint bool2int(a_0,v_p);\n\
         constraint int_lt_reif(v_x,v_y,a_1);\n\
         constraint array_bool_or([a_0,a_1],a_2);\n\
         constraint bool2int(a_2,a_3);\n\
         constraint int_lin_eq([1,1],[a_3,a_4],0);\n\
         constraint int_eq(a_4,-1);\n",
    ),
    (
        "ne(xor(p,q,gt(x,0)),mod(y,2))",
        "var bool: a_0;\n\
         var bool: a_1;\n\
         var bool: a_2;\n\
         var bool: a_3;\n\
         var bool: a_4;\n\
         var 0..1: a_5;\n\
         var 0..1: a_6;\n\
         constraint bool2int(a_0,v_p);\n\
         constraint bool2int(a_1,v_q);\n\
         constraint int_lt_reif(0,v_x,a_2);\n\
         constraint bool_xor(a_0,a_1,a_3);\n\
         constraint bool_xor(a_3,a_2,a_4);\n\
         constraint bool2int(a_4,a_5);\n\
         constraint int_mod(v_y,2,a_6);\n\
         constraint int_ne(a_5,a_6);\n",
    ),
    (
        "eq(min(iff(p,q),y),0)",
        "var bool: a_0;\n\
         var bool: a_1;\n\
         var bool: a_2;\n\
         var 0..1: a_3;\n\
         var 0..1: a_4;\n\
         constraint bool2int(a_0,v_p);\n\
         constraint bool2int(a_1,v_q);\n\
         constraint bool_eq_reif(a_0,a_1,a_2);\n\
         constraint bool2int(a_2,a_3);\n\
         constraint array_int_minimum(a_4,[a_3,v_y]);\n\
         constraint int_eq(a_4,0);\n",
    ),
    (
        "ge(y,mul(imp(p,q),5))",
        "var bool: a_0;\n\
         var bool: a_1;\n\
         var bool: a_2;\n\
         var 0..1: a_3;\n\
         var 0..5: a_4;\n\
         constraint bool2int(a_0,v_p);\n\
         constraint bool2int(a_1,v_q);\n\
         constraint bool_le_reif(a_0,a_1,a_2);\n\
         constraint bool2int(a_2,a_3);\n\
         constraint int_times(a_3,5,a_4);\n\
         constraint int_le(a_4,v_y);\n",
    ),
    (
        "eq(if(p,x,add(y,1)),z)",
        "var bool: a_0;\n\
         var 1..6: a_1;\n\
         var 0..1: a_2;\n\
         var 1..2: a_3;\n\
         var -2..6: a_4;\n\
         constraint bool2int(a_0,v_p);\n\
         constraint int_lin_eq([1,1,-1],[v_y,1,a_1],0);\n\
         constraint bool2int(a_0,a_2);\n\
         constraint int_lin_eq([1,1],[a_2,a_3],2);\n\
         constraint array_var_int_element(a_3,[v_x,a_1],a_4);\n\
         constraint int_eq(a_4,v_z);\n",
    ),
    (
        "le(if(and(p,q),if(p,1,7),x),3)",
        "var bool: a_0;\n\
         var bool: a_1;\n\
         var bool: a_2;\n\
         var bool: a_3;\n\
         var 0..1: a_4;\n\
         var 1..2: a_5;\n\
         var 1..7: a_6;\n\
         var 0..1: a_7;\n\
         var 1..2: a_8;\n\
         var -2..7: a_9;\n\
         constraint bool2int(a_0,v_p);\n\
         constraint bool2int(a_1,v_q);\n\
         constraint array_bool_and([a_0,a_1],a_2);\n\
         constraint bool2int(a_3,v_p);\n\
         constraint bool2int(a_3,a_4);\n\
         constraint int_lin_eq([1,1],[a_4,a_5],2);\n\
         constraint array_var_int_element(a_5,[1,7],a_6);\n\
         constraint bool2int(a_2,a_7);\n\
         constraint int_lin_eq([1,1],[a_7,a_8],2);\n\
         constraint array_var_int_element(a_8,[a_6,v_x],a_9);\n\
         constraint int_le(a_9,3);\n",
    ),
    (
        "eq(if(1,x,y),2)",
        "var 0..1: a_0;\n\
         var 1..2: a_1;\n\
         var -2..5: a_2;\n\
         constraint bool2int(true,a_0);\n\
         constraint int_lin_eq([1,1],[a_0,a_1],2);\n\
         constraint array_var_int_element(a_1,[v_x,v_y],a_2);\n\
         constraint int_eq(a_2,2);\n",
    ),
    (
        "ne(if(mod(y,2),sqr(x),neg(x)),mul(if(in(x,set()),1,2),z))",
        "var 0..1: a_0;\n\
         var bool: a_1;\n\
         var 0..9: a_2;\n\
         var -3..2: a_3;\n\
         var 0..1: a_4;\n\
         var 1..2: a_5;\n\
         var -3..9: a_6;\n\
         var 0..1: a_7;\n\
         var 1..2: a_8;\n\
         var 1..2: a_9;\n\
         var 1..8: a_10;\n\
         constraint int_mod(v_y,2,a_0);\n\
         constraint bool2int(a_1,a_0);\n\
         constraint int_times(v_x,v_x,a_2);\n\
         constraint int_lin_eq([1,1],[v_x,a_3],0);\n\
         constraint bool2int(a_1,a_4);\n\
         constraint int_lin_eq([1,1],[a_4,a_5],2);\n\
         constraint array_var_int_element(a_5,[a_2,a_3],a_6);\n\
         constraint bool2int(false,a_7);\n\
         constraint int_lin_eq([1,1],[a_7,a_8],2);\n\
         constraint array_var_int_element(a_8,[1,2],a_9);\n\
         constraint int_times(a_9,v_z,a_10);\n\
         constraint int_ne(a_6,a_10);\n",
    ),
];
