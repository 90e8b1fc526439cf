//! The laws.

ghost use Rattle.xs_laws.specs.Ascending.{ClosedLaw, SortedAmongLaw, SortedDifferentButLaw, SortedDifferentLaw, SortedDistinctLaw, SortedRunLaw};
ghost use Rattle.xs_laws.specs.Boxes.{NoOverlapLaw, SeparationLaw};
ghost use Rattle.xs_laws.specs.Cardinality.{CardinalityLaw};
ghost use Rattle.xs_laws.specs.Chain.{LexChainLaw, LexChainsLaw, LexLaw, LexListsLaw, LexTestLaw};
ghost use Rattle.xs_laws.specs.Channels.{ChannelByPlacesLaw, ChannelLaw, ChannelOfTwoByPlacesLaw, ChannelOfTwoLaw, ChannelOfValueLaw, NoneLaw};
ghost use Rattle.xs_laws.specs.Elements.{CellLaw, CellPlaceLaw, ElementLaw, FlatIndexByLaw, FlatIndexLaw, FromOneLaw, SomeElementLaw};
ghost use Rattle.xs_laws.specs.Examples.{Distinct, Loads};
ghost use Rattle.xs_laws.specs.Firsts.{CountLaw, DistinctLaw, DistinctSumLaw, OccurrencesLaw, PlacesAmongLaw, PlacesLaw};
ghost use Rattle.xs_laws.specs.Indices.{IndexLaw};
ghost use Rattle.xs_laws.specs.Meeting.{MeetsLaw};
ghost use Rattle.xs_laws.specs.Neighbours.{DifferentButLaw, DifferentLaw, DifferentLinesLaw, DifferentListsLaw, EqualLaw, GivenLaw, OrderedByLaw, OrderedLaw, StepLaw};
ghost use Rattle.xs_laws.specs.Peaks.{CumulativeEndsLaw, CumulativeLaw, LimitLaw, PeakTestLaw};
ghost use Rattle.xs_laws.specs.Tables.{NoRangesLaw, RangesLaw, TableLaw};

/// All are different where each two are.
pub fn different_is_pairs()
    ensures { DifferentLaw }
{}

/// The same, but for exceptions.
pub fn different_but_is_pairs()
    ensures { DifferentButLaw }
{}

/// Lists are different where of each two some place differs.
pub fn different_lists_is_pairs()
    ensures { DifferentListsLaw }
{}

/// Rows and columns have different values where each two of a line differ.
pub fn different_lines_is_pairs()
    ensures { DifferentLinesLaw }
{}

/// All are equal where neighbours are.
pub fn equal_is_neighbours()
    ensures { EqualLaw }
{}

/// Lists are the same where each place is.
pub fn given_is_each()
    ensures { GivenLaw }
{}

/// Without lengths, a list is ordered where neighbours stand so.
pub fn ordered_is_neighbours()
    ensures { OrderedLaw }
{}

/// With lengths, a list is ordered where each value plus its length stands so to the next.
pub fn ordered_is_spaced()
    ensures { OrderedByLaw }
{}

/// That a value plus a length stands so to the next is a linear inequality.
pub fn step_is_linear()
    ensures { StepLaw }
{}

/// Distinct values are counted where they first stand.
pub fn distinct_places()
    ensures { DistinctLaw }
{}

/// The same as a sum.
pub fn distinct_sum()
    ensures { DistinctSumLaw }
{}

/// A count of values is a sum of truth values.
pub fn count_sum()
    ensures { CountLaw }
{}

/// So is the number of places whose value is among the given ones.
pub fn places_among_sum()
    ensures { PlacesAmongLaw }
{}

/// So is the number of occurrences.
pub fn occurrences_sum()
    ensures { OccurrencesLaw }
{}

/// So is a count of places.
pub fn places_sum()
    ensures { PlacesLaw }
{}

/// All are different where no neighbours of a sorted copy are equal.
pub fn sorted_different()
    ensures { SortedDifferentLaw }
{}

/// The same, but for exceptions.
pub fn sorted_different_but()
    ensures { SortedDifferentButLaw }
{}

/// Distinct values are counted where a sorted copy has a new one.
pub fn sorted_distinct()
    ensures { SortedDistinctLaw }
{}

/// A value occurs as often as its run in a sorted copy is long.
pub fn sorted_run()
    ensures { SortedRunLaw }
{}

/// What is among values does not depend on their order.
pub fn sorted_among()
    ensures { SortedAmongLaw }
{}

/// No other value occurs where the given ones occur as often as there are places.
pub fn closed_is_sum()
    ensures { ClosedLaw }
{}

/// Lexicographic order is a chain, place by place.
pub fn lex_is_chain()
    ensures { LexLaw }
{}

/// The same of lists, and of the rows and columns of a matrix.
pub fn lists_are_chains()
    ensures { LexListsLaw }
{}

/// Lexicographic order is that of the values at the first place that differs.
pub fn lex_is_tested()
    ensures { LexTestLaw }
{}

/// Lexicographic order is a chain that is carried along.
pub fn lex_is_carried()
    ensures { LexChainLaw }
{}

/// The same of lists, and of the rows and columns of a matrix.
pub fn lists_are_carried()
    ensures { LexChainsLaw }
{}

/// A test tells whether a number meets a condition.
pub fn meets_is()
    ensures { MeetsLaw }
{}

/// A test tells whether a number is an index of a list.
pub fn index_is_tested()
    ensures { IndexLaw }
{}

/// A list has a member at an index where the member at its place is so.
pub fn element_is_place()
    ensures { ElementLaw }
{}

/// A member is the same by an index counted from 1.
pub fn element_is_from_one()
    ensures { FromOneLaw }
{}

/// Some member meets a condition where a test finds it.
pub fn some_element_is_found()
    ensures { SomeElementLaw }
{}

/// A matrix has a member at two indices where the member at their places is so.
pub fn cell_is_place()
    ensures { CellPlaceLaw }
{}

/// A member of a matrix is one of its members in a row.
pub fn cell_is_flat()
    ensures { CellLaw }
{}

/// Its index there is given by one linear equation.
pub fn flat_index_is_linear()
    ensures { FlatIndexLaw }
{}

/// And by three, from the indices counted from 1.
pub fn flat_index_is_three()
    ensures { FlatIndexByLaw }
{}

/// A channel is tested by pairs of places.
pub fn channel_is_pairs()
    ensures { ChannelLaw }
{}

/// So is a channel of two lists, of one length or of others.
pub fn channel_of_two_is_pairs()
    ensures { ChannelOfTwoLaw }
{}

/// A channel is tested once for each place.
pub fn channel_is_places()
    ensures { ChannelByPlacesLaw }
{}

/// So is a channel of two lists.
pub fn channel_of_two_is_places()
    ensures { ChannelOfTwoByPlacesLaw }
{}

/// A channel of a value is tested place by place, and by a sum.
pub fn channel_of_value_is_sum()
    ensures { ChannelOfValueLaw }
{}

/// None of them is x where all differ from it.
pub fn none_is_all()
    ensures { NoneLaw }
{}

/// The load is greatest at a start.
pub fn peak_at_start()
    ensures { CumulativeLaw }
{}

/// The same, where the load is a weighted sum by starts and ends.
pub fn peak_by_ends()
    ensures { CumulativeEndsLaw }
{}

/// The same for a condition that is a limit.
pub fn limits_have_peaks()
    ensures { LimitLaw }
{}

/// Then tasks are tested at one idle time and at each start.
pub fn peaks_are_tested()
    ensures { PeakTestLaw }
{}

/// Boxes do not overlap where each two that are kept have a reason.
pub fn no_overlap_is_clauses()
    ensures { NoOverlapLaw }
{}

/// That a box ends where another begins is a linear inequality.
pub fn separation_is_linear()
    ensures { SeparationLaw }
{}

/// A table says what tests of single values do.
pub fn table_is_matched()
    ensures { TableLaw }
{}

/// Ranges say what tests of merged ones do.
pub fn ranges_are_held()
    ensures { RangesLaw }
{}

/// No range at all holds no value.
pub fn no_ranges()
    ensures { NoRangesLaw }
{}

/// Values occur as often as is said where sums of truth values are so.
pub fn cardinality_is_sums()
    ensures { CardinalityLaw }
{}

/// An example: a task does not run at its end.
pub fn loads()
    ensures { Loads }
{}

/// An example: distinct values outside the exceptions.
pub fn distinct_values()
    ensures { Distinct }
{}
