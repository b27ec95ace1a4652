//! Descriptions, answers and edits, which the check computes.
ghost use Rattle.std.specs.Prelude.{◌≡◌, pos, negsuc, false, true, [], ◌∷◌, codes, None, Some};
ghost use Rattle.cf_ids.specs.declared.answer.Answer.TheVariants as answers;
ghost use Rattle.cf_number.specs.declared.kinds.NumKind.TheVariants.{S8, S16};
ghost use Rattle.cf_syntax.specs.declared.statement.Statement.TheVariants as forms;
ghost use Rattle.cf_contents.specs.Contents.{array_content, bag_content, dictionary_content, heap_content, instance_content, set_content, slots_in};
ghost use Rattle.cf_contents.specs.Descriptions.{description};
ghost use Rattle.cf_contents.specs.Examples.{point, a_point, a_number, a_text, a_string, some_data, no_data, an_array, a_dictionary, a_plain_one, a_set, a_bag, a_heap, a_key, key_of, value_of, answer_on, answer_on_nothing, after, coming, going};

/// An object of each kind, as it is described.
pub fn descriptions_of_objects()
    ensures text { description [] a_string ≡ codes "String \"hi\"" }
    ensures some_data { description [] some_data ≡ codes "Data 0a0b" }
    ensures no_data { description [] no_data ≡ codes "Data -" }
    ensures number { description [] a_number ≡ codes "Number s16 200" }
    ensures instance { description (point ∷ []) a_point ≡ codes "point -3 [nil nil]" }
    ensures array { description [] an_array ≡ codes "Array 2 [#0 #1]" }
    ensures dictionary { description [] a_dictionary ≡ codes "Dictionary 1 [#0:#3]" }
    ensures set { description [] a_set ≡ codes "Set 1 [#0]" }
    ensures bag { description [] a_bag ≡ codes "Bag 1 [#0x2]" }
    ensures heap { description [] a_heap ≡ codes "BinaryHeap 3 min #1" }
{}

/// What statements answer that act on contents: a mutable text with a surrogate pair at the units 1 and 2,
/// a string, data and a number, and where their variables are empty.
pub fn answers_of_edits()
    ensures ok { answer_on (forms.StrInsert 0 3 (codes "y")) a_text a_text ≡ answers.Ok }
    ensures range { answer_on (forms.StrInsert 0 5 []) a_text a_text ≡ answers.Range }
    ensures split { answer_on (forms.StrDelete 0 2 1) a_text a_text ≡ answers.Split }
    ensures range_first { answer_on (forms.StrDelete 0 2 3) a_text a_text ≡ answers.Range }
    ensures immutable { answer_on (forms.StrReplace 0 0 1 []) a_string a_text ≡ answers.Skip }
    ensures past { answer_on (forms.StrSub 1 0 0 9) a_string a_text ≡ answers.Range }
    ensures kept { answer_on (forms.NumAs 0 S16) a_number a_text ≡ answers.Number (pos 200) }
    ensures lossy { answer_on (forms.NumAs 0 S8) a_number a_text ≡ answers.Lossy }
    ensures other_kind { answer_on (forms.DataDelete 0 0 1) a_text a_text ≡ answers.Skip }
    ensures empty { answer_on_nothing (forms.Show 0) ≡ answers.Skip }
{}

/// What statements do to members: an array of two, an instance with two empty fields, and a dictionary in which the
/// key of the object 0 is equal to the one that is used.
pub fn edits_of_members()
    ensures set { after (forms.ArrSet 0 0 1) an_array a_key ≡ array_content false (1 ∷ 1 ∷ []) }
    ensures set_gives_out { going (forms.ArrSet 0 0 1) an_array a_key ≡ 0 ∷ [] }
    ensures set_at_end { after (forms.ArrSet 0 2 1) an_array a_key ≡ array_content false (0 ∷ 1 ∷ 1 ∷ []) }
    ensures set_past { answer_on (forms.ArrSet 0 3 1) an_array a_key ≡ answers.Range }
    ensures insert { after (forms.ArrInsert 0 0 1) an_array a_key ≡ array_content false (1 ∷ 0 ∷ 1 ∷ []) }
    ensures remove { after (forms.ArrRemove 0 0) an_array a_key ≡ array_content false (1 ∷ []) }
    ensures field { after (forms.FieldSet 0 1 1) a_point a_key ≡ instance_content (negsuc 2) (None ∷ Some 1 ∷ []) }
    ensures present { answer_on (forms.DictAdd 0 1 2) a_dictionary a_key ≡ answers.Present }
    ensures key_stays { after (forms.DictSet 0 1 2) a_dictionary a_key
        ≡ dictionary_content false ((key_of 0 (codes "k"), 2) ∷ []) }
    ensures value_alone { coming (forms.DictSet 0 1 2) a_dictionary a_key ≡ 2 ∷ [] }
    ensures pair_goes { going (forms.DictRemove 0 1) a_dictionary a_key ≡ 0 ∷ 3 ∷ [] }
    ensures plain_key { after (forms.DictSet 0 1 2) a_plain_one a_key
        ≡ dictionary_content true ((key_of 0 (codes "k"), 3) ∷ (key_of 1 (codes "k"), 2) ∷ []) }
    ensures plain_holds_nothing { coming (forms.DictSet 0 1 2) a_plain_one a_key ≡ [] }
{}

/// What statements do to members: a set and a bag with a member that is equal to the element that is used, twice in
/// the bag, and a heap of 2, 1 and 1.
pub fn edits_of_sets_bags_and_heaps()
    ensures present { answer_on (forms.SetAdd 0 1) a_set a_key ≡ answers.Present }
    ensures set_changes { after (forms.SetSet 0 1) a_set a_key ≡ set_content false (key_of 1 (codes "k") ∷ []) }
    ensures set_takes_in { coming (forms.SetSet 0 1) a_set a_key ≡ 1 ∷ [] }
    ensures set_gives_out { going (forms.SetSet 0 1) a_set a_key ≡ 0 ∷ [] }
    ensures set_counts { answer_on (forms.SetCount 0 1) a_set a_key ≡ answers.Number (pos 1) }
    ensures bag_counts { after (forms.SetAdd 0 1) a_bag a_key ≡ bag_content false ((key_of 0 (codes "k"), 3) ∷ []) }
    ensures first_alone { coming (forms.SetAdd 0 1) a_bag a_key ≡ [] }
    ensures number_stays { after (forms.SetReplace 0 1) a_bag a_key
        ≡ bag_content false ((key_of 1 (codes "k"), 2) ∷ []) }
    ensures bag_loses_one { after (forms.SetRemove 0 1) a_bag a_key
        ≡ bag_content false ((key_of 0 (codes "k"), 1) ∷ []) }
    ensures last_alone { going (forms.SetRemove 0 1) a_bag a_key ≡ [] }
    ensures bag_number { answer_on (forms.SetCount 0 1) a_bag a_key ≡ answers.Number (pos 2) }
    ensures heap_loses_least { after (forms.HeapRemove 0) a_heap a_key ≡
        heap_content false 3 ((value_of 0 (pos 2), 0) ∷ (value_of 2 (pos 1), 2) ∷ []) }
    ensures least_goes { going (forms.HeapRemove 0) a_heap a_key ≡ 1 ∷ [] }
    ensures heap_slots { slots_in a_heap.content ≡ 1 ∷ 2 ∷ 0 ∷ [] }
{}
