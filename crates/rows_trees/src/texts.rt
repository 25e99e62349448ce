//! Whole trees, as a log with bounds shows them: read, and printed again.
use std::alloc::Global;
use std::test::Fail;
use tp_bounds::{BoundTree, TreeFault, print_tree, read_tree};

/// The longest text of a row.
const MOST: usize = 4096;

#[tactic(auto, using(tp_words::proofs::Texts::short_lines))]
pub(crate) fn read(alloc: Global, text: &[u8]) -> Result<BoundTree, TreeFault> {
    if text.len() > MOST {
        return Err(TreeFault::Memory);
    }
    read_tree(alloc, text)
}

/// Fails where the text is no tree, or is printed as another one.
#[tactic(auto, using(tp_words::proofs::Texts::short_lines, tp_bounds::proofs::TreeFacts::tree_printable))]
fn is_tree(alloc: Global, text: &[u8]) -> Result<(), Fail> {
    if text.len() > MOST {
        return Err(Fail::from("a longer text than a row has"));
    }
    let tree = read_tree(alloc, text).ok().ok_or("no tree")?;
    let mut out = Vec::new(alloc);
    print_tree(&tree, &mut out).ok().ok_or("memory")?;
    if out.as_slice() == text {
        Ok(())
    } else {
        Err(Fail::from("another text than the row's"))
    }
}

#[test]
fn whole_trees(rt: HostRuntime) -> Result<(), Fail> {
    let rows: [&[u8]; 9] = [
        // A first sheet, and as well that it can't end by 13.
        b"b room f:F00 0\n\
          b room a:F00 2\n\
          b room b:F10 8\n\
          b room t:F10 11\n\
          b room p:F10 11\n\
          b 0 goal t:F10 chain *0\n",
        // A second one behind it.
        b"b room f:F00 0\n\
          b room a:F00 2\n\
          b room b:F10 8\n\
          b room t:F10 11\n\
          b room p:F10 11\n\
          b 0 goal t:F10 split\n\
          b 1 act out split\n\
          b 2 at rt 0 0 loop *0 rt:*/1>j1.1.1/3 l:*0\n\
          b 2 at rt 1 1 split\n\
          b 3 act print1 chain *2 d:*1 d:*0\n\
          b 3 act print2 split\n\
          b 4 at r2 0 0 chain *2 d:*1 r2:*/2>j1.1.1/2 d:j1.1.1@2 d:j1.1.1@3 l:*0\n\
          b 4 at r2 1 1 chain j1.1.1@0 d:j1.1.1@1 d:j1.1.1@2 r2:j1.1.1/2>*/2 d:*1 d:*0\n",
        // A tray that can't be reached.
        b"b room f:F00 0\n\
          b room a:F00 2\n\
          b room b:F10 8\n\
          b room p:F10 11\n\
          b 0 goal t:F10 dead\n",
        // One goal alone.
        b"b 0 goal t:F10 chain *0\n",
        // Each head with each close.
        b"b 0 goal t:B11 split\n\
          b 1 act out dead\n\
          b 2 at rt 0 2 chain j1.1.1@0\n\
          b 3 stop loop *1 d:*0 d:*1\n",
        // Rows alone.
        b"b room -:B11 4294967295\n\
          b room _:F01 0\n",
        // The greatest numbers, and resources named as hops are.
        b"b 4294967295 at d 4294967295 4294967295 loop *4294967295 d:*/1>d.0.0/0 l:l.1.2/3>*/4\n",
        // In any order, and more than once.
        b"b 7 stop split\n\
          b 0 stop split\n\
          b 0 stop split\n",
        // A name of 32 bytes.
        b"b 0 act abcdefghijklmnopqrstuvwxyz012345 split\n",
    ];
    for text in rows {
        is_tree(rt.alloc(), text)?;
    }
    Ok(())
}

/// The other trees of the worked scripts' logs with bounds.
const OF_WORKED_SCRIPTS: [&[u8]; 16] = [
    b"b room f:F00 0\n\
      b room a:F00 2\n\
      b room b:F10 8\n\
      b room t:F10 11\n\
      b room p:F10 11\n\
      b 0 goal t:F10 split\n\
      b 1 act out split\n\
      b 2 at rt 0 0 loop *0 rt:*/1>j1.1.1/3 l:*0\n\
      b 2 at rt 1 1 split\n\
      b 3 act print1 chain *2 d:*1 d:*0\n\
      b 3 act print2 split\n\
      b 4 at r2 0 0 chain *1 r2:*/2>j1.1.1/2 d:j1.1.1@2 d:j1.1.1@3 rt:j1.1.1/3>*/1\n\
      b 4 at r2 1 1 chain j1.1.1@0 d:j1.1.1@1 d:j1.1.1@2 r2:j1.1.1/2>*/2 d:*1 d:*0\n",
    b"b room f:F00 0\n\
      b room a:F00 2\n\
      b room b:F10 11\n\
      b room t:F10 14\n\
      b room p:F10 14\n\
      b 0 goal t:F10 chain *0\n",
    b"b room a:F00 0\n\
      b room b:F10 6\n\
      b room p:F10 9\n\
      b 0 goal p:F00 dead\n\
      b 0 goal p:F10 chain *0\n\
      b 0 goal p:B00 dead\n\
      b 0 goal p:B10 dead\n",
    b"b room b:F10 0\n\
      b room p:F10 3\n\
      b 0 goal t:F10 dead\n",
    b"b room b:F10 0\n\
      b room p:F10 3\n\
      b 0 goal p:F00 dead\n\
      b 0 goal p:F10 chain *0\n\
      b 0 goal p:B00 dead\n\
      b 0 goal p:B10 dead\n",
    b"b room b:F10 0\n\
      b 0 goal p:F00 dead\n\
      b 0 goal p:F10 dead\n\
      b 0 goal p:B00 dead\n\
      b 0 goal p:B10 dead\n",
    b"b room f:F00 0\n\
      b room a:F00 2\n\
      b room b:F10 11\n\
      b 0 goal t:F10 dead\n",
    b"b room f:F00 0\n\
      b room a:F00 2\n\
      b 0 goal t:F10 dead\n",
    b"b room f:F00 0\n\
      b room a:F00 2\n\
      b room t:F00 7\n\
      b 0 goal t:F00 chain *0\n",
    b"b room f:F00 0\n\
      b room a:F00 2\n\
      b room t:F00 7\n\
      b 0 goal t:F00 split\n\
      b 1 act left chain *1 d:*0\n\
      b 1 act right split\n\
      b 2 at rr 0 0 loop *0 rr:*/1>j1.1.1/2 d:j1.1.1@2 l:*0\n\
      b 2 at rr 1 1 chain j1.1.1@0 d:j1.1.1@1 d:j1.1.1@2 rr:j1.1.1/2>*/1 d:*0\n",
    b"b room f:F00 0\n\
      b room a:F00 2\n\
      b room t:F00 5\n\
      b 0 goal t:F00 chain *0\n",
    b"b room f:F00 0\n\
      b room a:F00 2\n\
      b room t:F00 5\n\
      b 0 goal t:F00 split\n\
      b 1 act out split\n\
      b 2 at rt 0 0 loop *0 rt:*/1>j1.1.1/2 l:*0\n\
      b 2 at rt 1 1 split\n\
      b 3 act feed split\n\
      b 4 at rf 0 0 loop j1.1.1@2 l:*0 d:*1 rf:*/2>j1.1.1/1 d:j1.1.1@1 d:j1.1.1@2\n\
      b 4 at rf 1 1 chain j1.1.1@0 d:j1.1.1@1 rf:j1.1.1/1>*/2 d:*1 d:*0\n",
    b"b room f:F00 0\n\
      b room a:F00 2\n\
      b room a:F11 6\n\
      b room a:B10 4\n\
      b room t:F00 5\n\
      b room t:F11 9\n\
      b room t:B10 7\n\
      b 0 goal t:F11 split\n\
      b 1 act out split\n\
      b 2 at rt 0 0 split\n\
      b 3 act feed dead\n\
      b 3 act print split\n\
      b 4 at rp 0 0 split\n\
      b 5 act feed dead\n\
      b 5 act print split\n\
      b 6 at rp 0 0 loop *2 rp:*/3>*/2\n\
      b 6 at rp 1 1 loop *1 rp:*/2>*/3 d:*2 d:*1\n\
      b 5 act turn chain *3 d:*2 d:*1 d:*0\n\
      b 3 act turn chain *2 d:*1 d:*0\n",
    b"b room f:F00 0\n\
      b room a:F00 2\n\
      b room b:F10 8\n\
      b room t:F10 11\n\
      b room p:F10 11\n\
      b 0 goal t:F10 split\n\
      b 1 act out split\n\
      b 2 at rt 0 0 loop *0 rt:*/1>j1.1.1/3 l:*0\n\
      b 2 at rt 1 1 split\n\
      b 3 act tint split\n\
      b 4 at r2 0 0 chain *1 r2:*/2>j1.1.1/2 d:j1.1.1@2 d:j1.1.1@3 rt:j1.1.1/3>*/1\n\
      b 4 at r2 1 1 chain j1.1.1@0 d:j1.1.1@1 d:j1.1.1@2 r2:j1.1.1/2>*/2 d:*1 d:*0\n",
    b"b room f:F00 0\n\
      b room a:F00 2\n\
      b room b:F10 8\n\
      b room t:F10 11\n\
      b room p:F10 11\n\
      b 0 goal t:F10 split\n\
      b 1 act out split\n\
      b 2 at rt 0 0 loop *0 rt:*/1>j1.1.1/3 l:*0\n\
      b 2 at rt 1 1 split\n\
      b 3 act print2 split\n\
      b 4 at r2 0 0 chain *1 r2:*/2>j1.1.1/2 d:j1.1.1@2 d:j1.1.1@3 rt:j1.1.1/3>*/1\n\
      b 4 at r2 1 1 chain j1.1.1@0 d:j1.1.1@1 d:j1.1.1@2 r2:j1.1.1/2>*/2 d:*1 d:*0\n",
    b"b room f:F00 0\n\
      b room a:F00 2\n\
      b room b:F10 8\n\
      b room t:F10 11\n\
      b room p:F10 11\n\
      b 0 goal t:F10 split\n\
      b 1 act out split\n\
      b 2 at rt 0 0 chain *0 rt:*/1>j1.1.1/3\n\
      b 2 at rt 1 1 split\n\
      b 3 act tint split\n\
      b 4 at r2 0 0 chain *1 r2:*/2>j1.1.1/2\n\
      b 4 at r2 1 1 chain j1.1.1@2 r2:j1.1.1/2>*/2 d:*1 d:*0\n",
];

#[test]
fn trees_of_worked_scripts(rt: HostRuntime) -> Result<(), Fail> {
    for text in OF_WORKED_SCRIPTS {
        is_tree(rt.alloc(), text)?;
    }
    Ok(())
}

#[test]
fn first_lines_off_the_grammar(rt: HostRuntime) -> Result<(), Fail> {
    let rows: [(&[u8], u64); 20] = [
        (b"", 1),
        (b"\n", 1),
        (b"b 0 stop dead", 1),
        (b"b 0 stop dead\nb room f:F00 0\n", 2),
        (b"b 0 stop dead\nb 1 stop split\n\n", 3),
        (b"b 0 stop dead\nb 00 stop dead\nb x\n", 2),
        (b"b 0 stop loop *0\n", 1),
        (b"b 0 stop split *0\n", 1),
        (b"b 0  stop split\n", 1),
        (b"b 0 stop split \n", 1),
        (b"b 4294967296 stop split\n", 1),
        (b"b room f:f00 0\n", 1),
        (b"b room f:F02 0\n", 1),
        (b"b room f:F00\n", 1),
        (b"b 0 at r 0 chain *0\n", 1),
        (b"b 0 stop chain\n", 1),
        (b"b 0 stop chain *0 d:*/1\n", 1),
        (b"b 0 stop chain *0 r:*1>*/2\n", 1),
        (b"b 0 stop chain *0 d:j1.1@2\n", 1),
        (b"> clock 1\n", 1),
    ];
    for (text, wanted) in rows {
        match read(rt.alloc(), text) {
            Err(TreeFault::Bad(line)) => assert!(rt; line == wanted, "{text:?}"),
            _ => return Err(Fail::from("a row off the grammar is read")),
        }
    }
    Ok(())
}
