//! Whole logs, as runs write them: read, and printed again.
ghost use Rattle.std.specs.Prelude.{All};
ghost use Rattle.tp_bounds.specs.Trees.{IsTree};
ghost use Rattle.tp_log.specs.Logs.{IsItem};

use std::alloc::Global;
use std::test::Fail;
use tp_base::Memory;
use tp_bounds::{BoundTree, print_tree};
use tp_log::{Item, LogFault, print_echo, print_record, read_log};

/// The longest text of a row.
const MOST: usize = 4096;

fn put_tree(tree: &BoundTree, out: &mut Vec<u8>) -> Result<(), Memory>
    requires { IsTree tree.now }
{
    print_tree(tree, out)
}

fn put_item(item: &Item, out: &mut Vec<u8>) -> Result<(), Memory>
    requires { IsItem item.now }
{
    match item {
        Item::Event(event) => print_echo(event, out),
        Item::Note(rec) => print_record(rec, out),
        Item::Tree(tree) => put_tree(tree, out),
    }
}

/// The first line of the text that is off the grammar.
#[tactic(auto, using(tp_words::proofs::Texts::short_lines))]
fn bad_line(alloc: Global, text: &[u8]) -> Option<u64> {
    if text.len() > MOST {
        return None;
    }
    match read_log(alloc, text) {
        Err(LogFault::Bad(line)) => Some(line),
        Err(LogFault::Memory) => None,
        Ok(items) => {
            drop(items);
            None
        }
    }
}

/// The text of the items.
fn text_of(alloc: Global, items: &[Item]) -> Result<Vec<u8>, Fail>
    requires { All IsItem items.now }
{
    let mut out = Vec::new(alloc);
    for item in items {
        put_item(item, &mut out).ok().ok_or("memory")?;
    }
    Ok(out)
}

/// Fails where the text is no log, or is printed as another one.
#[tactic(auto, using(tp_words::proofs::Texts::short_lines))]
fn is_log(alloc: Global, text: &[u8]) -> Result<(), Fail> {
    if text.len() > MOST {
        return Err(Fail::from("a longer text than a row has"));
    }
    let items = read_log(alloc, text).ok().ok_or("no log")?;
    let printed = text_of(alloc, &items);
    drop(items);
    let printed = printed?;
    if printed.as_slice() == text {
        Ok(())
    } else {
        Err(Fail::from("another text than the row's"))
    }
}

#[test]
fn whole_logs(rt: HostRuntime) -> Result<(), Fail> {
    let rows: [&[u8]; 15] = [
        b"",
        b"> job j1 t plain M-:F\n\
          plan j1.1.1 t 3 feed 5 print2 11 out 14\n",
        b"> job j1 t plain 2*M-:F\n\
          plan j1.1.1 t 3 feed 5 print2 11 out 14\n\
          plan j1.2.1 t 3 feed 5 print1 14 out 17\n\
          move j1.1.1 5 7 13 16\n",
        b"> job j1 t plain M-:F\n\
          budget j1.1.1 t 14\n",
        b"> job j1 t plain 2*M-:F\n\
          plan j1.1.1 t 3 feed 5 print2 11 out 14\n\
          budget j1.2.1 t 15\n",
        b"> job j1 t plain M-:F\n\
          plan j1.1.1 t 3 feed 5 print2 11 out 14\n\
          > clock 1\n\
          release j1.1.1 1 feed 3 5\n\
          > clock 0\n\
          refused back 1\n\
          > clock 1000000001\n\
          refused end\n\
          > clock 1\n\
          > clock 1000000000\n\
          release j1.1.1 2 print2 5 11\n\
          release j1.1.1 3 out 11 14\n\
          done j1.1.1 t 14\n\
          > job j2 t plain M-:F\n\
          plan j2.1.1 t 1000000003 feed 1000000005 print2 1000000011 out 1000000014\n",
        b"> job j1 t plain M-:F\n\
          plan j1.1.1 t 3 feed 5 print2 11 out 14\n\
          > clock 1\n\
          release j1.1.1 1 feed 3 5\n\
          > clock 50\n\
          release j1.1.1 2 print2 5 11\n\
          release j1.1.1 3 out 11 14\n\
          done j1.1.1 t 14\n\
          > clock 100\n",
        b"> job j1 t plain M-:F\n\
          plan j1.1.1 t 3 feed 5 print2 11 out 14\n\
          > clock 6\n\
          release j1.1.1 1 feed 3 5\n\
          release j1.1.1 2 print2 5 11\n\
          > jam ENG2\n\
          lost j1.1.1\n\
          again j1.1.2\n\
          plan j1.1.2 t 9 feed 11 print1 20 out 23\n\
          > off ENG2\n\
          refused out ENG2\n\
          > on ENG2\n\
          > on ENG2\n\
          refused noton ENG2\n\
          > jam X\n\
          refused module X\n",
        b"> job j1 t plain 2*M-:F\n\
          plan j1.1.1 t 3 feed 5 print2 11 out 14\n\
          plan j1.2.1 t 3 feed 5 print1 14 out 17\n\
          move j1.1.1 5 7 13 16\n\
          > clock 4\n\
          release j1.2.1 1 feed 3 5\n\
          release j1.1.1 1 feed 5 7\n\
          release j1.2.1 2 print1 5 14\n\
          > off OUT\n\
          recall j1.1.1 1\n\
          withdraw j1.1.1\n\
          recall j1.2.1 2\n\
          cut j1.2.1\n\
          purge j1.2.1\n\
          again j1.2.2\n\
          plan j1.2.1 p 5 print2 11 dump 14\n\
          release j1.2.1 2 print2 5 11\n\
          none j1.1.1 t\n",
        b"> job j1 t plain M-:F\n\
          plan j1.1.1 t 3 feed 5 print2 11 out 14\n\
          > clock 6\n\
          release j1.1.1 1 feed 3 5\n\
          release j1.1.1 2 print2 5 11\n\
          > off OUT\n\
          cut j1.1.1\n\
          none j1.1.1 t\n\
          purge j1.1.1\n\
          again j1.1.2\n\
          plan j1.1.1 p 11 dump 14\n\
          none j1.1.2 t\n\
          > off DUMP\n\
          cut j1.1.1\n\
          none j1.1.1 *\n\
          stuck j1.1.1 ENG2\n\
          lost j1.1.1\n\
          none j1.1.2 t\n",
        b"> job j1 t plain --:F\n\
          plan j1.1.1 t 3 feed 5 right 10\n\
          > job j2 t plain --:F\n\
          plan j2.1.1 t 3 feed 5 left 13\n\
          move j1.1.1 5 7 12\n\
          > clock 8\n\
          release j2.1.1 1 feed 3 5\n\
          release j1.1.1 1 feed 5 7\n\
          release j2.1.1 2 left 5 13\n\
          release j1.1.1 2 right 7 12\n\
          > jam R\n\
          lost j1.1.1\n\
          broken j1\n\
          > clock 13\n\
          done j2.1.1 t 13\n",
        b"> job j1 x plain M-:F\n\
          refused tray x\n\
          > job j1 t glossy M-:F\n\
          refused media glossy\n\
          > job j1 t plain 4096*M-:F M-:F\n\
          refused waiting\n\
          > ?\n\
          refused syntax\n\
          > job j1 t plain M-:F\n\
          plan j1.1.1 t 3 feed 5 print2 11 out 14\n\
          > job j1 t plain M-:F\n\
          refused named j1\n",
        b"> job j1 t plain M-:F\n\
          plan j1.1.1 t 3 feed 5 print2 11 out 14\n\
          b room f:F00 0\n\
          b room e:F10 8\n\
          b 0 goal t:F10 split\n\
          b 1 act out chain *1 d:*0\n\
          > job j2 t plain M-:F\n\
          none j2.1.1 t\n\
          b 0 goal t:F10 dead\n\
          drop j2.1.1\n",
        b"> job j1 t plain 2*M-:F\n\
          plan j1.1.1 t 3 feed 5 print2 11 out 14\n\
          b 0 goal t:F10 dead\n\
          plan j1.2.1 t 3 feed 5 print1 14 out 17\n\
          move j1.1.1 5 7 13 16\n\
          b room f:F00 0\n\
          > clock 3\n\
          release j1.1.1 1 feed 3 5\n",
        b"> clock 4294967295\n\
          full j1.1.1\n\
          drop j1.1.1\n\
          move j1.4294967295.0 0 4294967295\n",
    ];
    for text in rows {
        is_log(rt.alloc(), text)?;
    }
    Ok(())
}

#[test]
fn first_lines_off_the_grammar(rt: HostRuntime) -> Result<(), Fail> {
    let rows: [(&[u8], u64); 26] = [
        (b"plan j1.1.1 t 3 feed 5\n", 1),
        (b"refused syntax\n", 1),
        (b"> clock 1", 1),
        (b"> clock 1\ndone j1.1.1 t 3", 2),
        (b"\n", 1),
        (b"> clock 1\n\n> clock 2\n", 2),
        (b"> clock 01\n", 1),
        (b"> job j1 t plain 1*M-:F\n", 1),
        (b">clock 1\n", 1),
        (b"> clock 1\r\n", 1),
        (b"> clock 1\nplan j1.1.1 t 3 feed\n", 2),
        (b"> clock 1\nplan j1.1.1 t 3\n", 2),
        (b"> clock 1\nmove j1.1.1 3\n", 2),
        (b"> clock 1\ndone j1.1 t 3\n", 2),
        (b"> clock 1\n> clock 2\nrelease j1.1.1 01 feed 3 5\n", 3),
        (b"> clock 1\nrefused tray\n", 2),
        (b"> clock 1\nrefused syntax x\n", 2),
        (b"> clock 1\nlost  j1.1.1\n", 2),
        (b"> clock 1\nlost j1.1.1 \n", 2),
        (b"> clock 1\nlost j1.1.1\ndone j1.1.1 t 4294967296\n", 3),
        (b"> clock 1\nLOST j1.1.1\n", 2),
        (b"> clock 1\nb room f:F00 0\n", 2),
        (b"b room f:F00 0\n", 1),
        (b"> clock 1\nlost j1.1.1\nb 0 stop dead\n", 3),
        (
            b"> clock 1\nnone j1.1.1 t\nb 0 stop dead\nb room f:F00 0\n",
            4,
        ),
        (
            b"> clock 1\nnone j1.1.1 t\nb 0 stop dead\nb 0 stop dead x\n",
            4,
        ),
    ];
    for (text, wanted) in rows {
        assert_eq!(rt; bad_line(rt.alloc(), text), Some(wanted), "{text:?}");
    }
    Ok(())
}
