//! Files in the layout of `cdf_write`, read as stacks.

ghost use Rattle.std.specs.Prelude.{◌≡◌, ◌≤◌, ◌++◌, ◌∷◌, [], ℕ, List, length, Ok, None, true};
ghost use Rattle.nd_base.specs.declared.array.Dim.{Dim};
ghost use Rattle.nd_base.specs.declared.array.SampleType.{SampleType};
ghost use Rattle.nd_base.specs.declared.attribute.FileShape.{FileShape};
ghost use Rattle.nd_base.specs.declared.form.Form.{Form};
ghost use Rattle.nd_base.specs.declared.form.Form.TheVariants.{Classic};
ghost use Rattle.nd_base.specs.Array.{Array, StackValue};
ghost use Rattle.nd_base.specs.Forms.{longest_of};
ghost use Rattle.nd_base.specs.SampleLaws.{AreBytes};
ghost use Rattle.nd_base.specs.Shapes.{has_dimensions, sample_count, most_samples};
ghost use Rattle.cdf_write.specs.Lengths.{length_of};
ghost use Rattle.cdf_write.specs.Writable.{IsWritable};
ghost use Rattle.nd_stack.specs.Generated.{generated, generated_shape, generated_stack, gen_fault};
ghost use Rattle.nd_stack.specs.KeptStacks.{IsKeptStack};
ghost use Rattle.nd_stack.specs.OpenReads.{IsOpenGroup, OpenReadsBack};
ghost use Rattle.nd_stack.specs.StackRules.{stack_of};
ghost use Rattle.nd_stack.specs.RoundTrip.{IsKeptGroup, ReadsBack};

/// The file of some arrays of one shape is read as a stack of these arrays, where it isn't too long, the arrays
/// are at most as many as a stack has, and no text has a zero byte.
pub fn layout_reads_back()
    ensures { (shape : FileShape) (arrays : List Array) → IsKeptGroup shape arrays → ReadsBack shape arrays }
{}

/// The shape of a stack that was read is writable, and so is each shape that is made of it for another form of
/// file, another sample type and other dimensions that an array can have.
pub fn stack_shape_is_writable()
    ensures read { (bytes : List ℕ) (s : StackValue) → stack_of bytes ≡ Ok s → IsWritable s.shape }
    ensures made { (shape : FileShape) (form : Form) (kind : SampleType) (dims : List Dim) → IsWritable shape → has_dimensions dims ≡ true →
        sample_count dims ≤ most_samples → IsWritable (record shape { form = form; kind = kind; dims = dims }) }
{}

/// Every stack that was read can be written: its arrays have its shape. Where it has an array and the file of its
/// arrays isn't too long, that file is read as a stack of the same arrays.
pub fn stacks_read_back()
    ensures kept { (bytes : List ℕ) (s : StackValue) → AreBytes bytes → stack_of bytes ≡ Ok s → IsKeptStack s }
    ensures back { (bytes : List ℕ) (s : StackValue) → AreBytes bytes → stack_of bytes ≡ Ok s → 1 ≤ length s.arrays →
        length_of s.shape (length s.arrays) ≤ longest_of s.shape.form → ReadsBack s.shape s.arrays }
{}

/// Every stack that is generated can be written, and its file is never too long. Where it has a frame, that file is read as a stack of the same
/// arrays.
pub fn generated_stacks_read_back()
    ensures kept { (n w h : ℕ) (kind : SampleType) (start : ℕ) → gen_fault n w h kind ≡ None → IsKeptStack (generated_stack n w h kind start) }
    ensures within { (n w h : ℕ) (kind : SampleType) → gen_fault n w h kind ≡ None → length_of (generated_shape w h kind) n ≤ longest_of Classic }
    ensures back { (n w h : ℕ) (kind : SampleType) (start : ℕ) → gen_fault n w h kind ≡ None → 1 ≤ n
        → ReadsBack (generated_shape w h kind) (generated n w h kind start) }
{}

/// A file whose number of records was left open, with the rows of some arrays and a front of one row more, is read as a stack
/// of these arrays, and of the last one besides where its row is whole.
pub fn open_files_read_back()
    ensures { (shape : FileShape) (room : ℕ) (arrays : List Array) (a : Array) (count : ℕ) → IsOpenGroup shape room (arrays ++ a ∷ [])
        → OpenReadsBack shape arrays a count }
{}
