// Variables kept by slots and kinds: plain ones in words and ranges, domains, the tuples of loops, and arrays. Definitions and laws alone.
// Which arrays a domain variable takes along is known where it is assigned, so that no run has to look for them.
// What is put into an element has to be of the array's kind, which no word tells: so it is asked of an assignment's right side and of an
// initial value, of a whole array's in each turn, and once where there is no whole array in it (`suits`), and of an element's once
// (`suits_element`). Slots are used again, so what is told of a slot changes with each declaration.
// In `for t in D` t is an int where D has one dimension, and else a tuple. What stands in D's slot may have any rank, so the name has a
// shape (`Shape`), which is read off the check's type. A memory is shaped where each name in sight has a value of its shape; of such
// memories it is asked that a right side and a loop give values of the name's kind and shape, and the simulation keeps its memory shaped
// (proofs/Shapes.antt, proofs/OverShapes.antt). That they do give them is the theorem of dpl_sound (proofs/Shaped.antt of dpl_runnable).
#![tactic(auto)]
