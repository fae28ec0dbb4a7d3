// Texts, read or refused: four hundred made by chance from the grammar's lines and then changed here and there, and behind them those written by hand.
// Each line is the answer, `read` or a refusal, and from column 14 on the text, in which ~ stands for a newline.

pub const TABLE: &str = "\
P1 at 2:9    use BlockDist~;config A~:[~x9,dim ..size ,boundingBox]bool ;\n\
read         { i reduce= i..~x9;on i do ; }\n\
P1 at 1:13   boundingBox writeln ( \"\") ;\n\
P1 at 3:4    if b ==boundingBox&&i~&& startIdx~|| while then const size =startIdx ;\n\
P1 at 4:21   config const startIdx= boundingBox~*x9 * - dim-~- a~-i + b ..< - - i by-]startIdx -~- x9 ;\n\
P1 at 3:1    reset .~readFE(~[ );\n\
read         use BlockDist,~BlockDist , BlockDist ; config const startIdx=reset ;\n\
P1 at 3:1    config~const first~D~:bool ; ;\n\
P1 at 5:1    {size~. writeEF ( startIdx~&& reset || x9 ) ; var reset: domain( 0~);for(~,~reset)in~boundingBox { } ;}\n\
read         use CyclicDist;config~const i= boundingBox ..x9 dmapped new cyclicDist(startIdx) ;config const~b = a..<x9 dmapped new cyclicDist (b~);\n\
read         writeln( ) ;\n\
P1 at 1:11   D.readFF( ;\n\
P1 at 5:8    use BlockCycDist, BlockCycDist , BlockDist~; dim[ x9!= b~||size]~/= -size +~A<=A < ==D <~boundingBox ;\n\
read         use CyclicDist ;~config const x9 : domain( 0x1F );\n\
P1 at 1:20   config const reset readFE sync bool~;\n\
P1 at 1:1    *=const D: bool =~cyclicDist .createDomain(-~- i.. -size ) ;\n\
P1 at 1:8    config startIdx reset~:sync int~;\n\
P1 at 1:3    if==reset||D &&reset~{} else while dim || a { }\n\
read         b . readFE( ) ; ;\n\
read         config const boundingBox = blockDist .~createDomain (b.. b - - x9~,D ||~size)~; A[ x9,~a ]/=D ..< - D;\n\
P1 at 2:1    use BlockDist~%~;const ;\n\
P1 at 3:1    use~CyclicDist, BlockDist~& ; config~const size :sync bool =startIdx%b|| x9 dmapped~new blockDist( boundingBox = dim~)~;\n\
read         const A= - -reset ..~#~boundingBox +~b by- D dmapped new cyclicDist ( dim~) ;\n\
read         config const i = dim <=reset <=D&&~startIdx~+ b == startIdx!=i&& x9 <~b != x9==A&&i ==A~;\n\
read         config const x9~:~[~i .. #~A, A.. startIdx, b] int ;\n\
read         on - -b<= boundingBox +b!=b >= x9|| -startIdx~+~reset> size~== D &&reset < A &&a == x9&&startIdx {}\n\
read         config~const startIdx:~sync int ;\n\
read         var size :[a ||i ||~dim~]bool ;;\n\
P1 at 2:1    config const~= b .. # dim by i;{ }\n\
read         writeln ( '\\n' , \"\" )~;\n\
P1 at 1:57   config const boundingBox= cyclicDist .createDomain (- | / reduce+ reduce D~% ! A * i .. - - A- - b+ size* size); ;\n\
P1 at 5:1    config const startIdx=size~+D +~-~x9 ..<writeFF~dim - - A~+ i~by - -i+ref;\n\
P1 at 1:37   on A == b&& boundingBox && startIdx readFF||startIdx&&~A ||startIdx|| b{ }\n\
read         if~- -boundingBox&&~boundingBox+~boundingBox <= A &&~b then;\n\
P1 at 1:17   config const x9 writeEF= ! reset~.. # A by - b ;\n\
read         config const size :domain ( 1)~dmapped new blockDist (~boundingBox=D) =cyclicDist~.~createDomain(a);\n\
read         { }\n\
read         config const startIdx :[~startIdx,size .. reset] bool ;\n\
P1 at 2:11   config const reset:~int = a.. ; config const size= D ..<i by i;\n\
P1 at 9:30   config const~a= cyclicDist .createDomain(reset >=reset~>=A ||~-~A~>dim~== dim<size~!=~boundingBox && startIdx && D +=;\n\
P1 at 2:27   config const x9 : int~= cyclicDist.createDomain boundingBox(- ! ![* ! +reduce dim..~#&&reduce *reduce+reduce A );\n\
P1 at 3:7    use BlockDist; ;~config~const =cyclicDist.createDomain( -reset .. -A) |\n\
read         i .readFF~( ) ;\n\
read         config const b:domain~(1_0) = x9 ; write() ;\n\
P1 at 1:75   config const boundingBox= cyclicDist. createDomain ( reset ..size );expand\n\
P1 at 5:31   coforall( dim ,b )in reset.. - reset + D~do on~i ||~x9{} config const size :int=~cyclicDist . createDomain( A )by\n\
P1 at 2:7    var x9:sync bool = blockDist.createDomain ( boundingBox .. # dim by A~,b..<a}by a);\n\
P1 at 2:27   use BlockDist ,~BlockDist , BlockDist ;var: int =i ;\n\
P1 at 1:13   dim. readFE blocksize ( );\n\
read         config const reset:int = blockDist . createDomain (b..size , reset~);\n\
read         forall~(~x9,dim )~in - - -i..< -reset~* i * -boundingBox by+~reduce D do;\n\
P1 at 3:45   on dim|| i~{ }~config const reset=cyclicDist .createDomain(,size ..size,reset );\n\
P1 at 1:11   CyclicDist,CyclicDist ,BlockDist ; config~const b =boundingBox ;config const write = cyclicDist . createDomain (a~) ;\n\
read         ;~config const i :int;\n\
P1 at 1:5    use writeXF config~const~reset:bool ;\n\
P1 at 2:17   config const~startIdx : sync 7 ; .\n\
P1 at 5:1    config const~a= blockDist~. createDomain~( !b * b* -A~b +~dim by- -i~+ -~startIdx+~b ,reset );\n\
P1 at 1:49   while startIdx== startIdx && b &&A|| size <= && a~||b {}\n\
read         config const x9 : bool ;\n\
P1 at 1:9    while ||true /= &reduce max reduce +reduce x9 / - + reduce A % - -~b~{ } ;\n\
read         use BlockCycDist ;on- -x9==reset~==~startIdx <i {}~config const x9 : int;\n\
read         config const dim =blockDist~.~createDomain (i~,i || size , size|| boundingBox, dim ..< D);\n\
P1 at 1:8    on x9==do write()\n\
read         config const boundingBox : bool =b .. i ; config const startIdx= cyclicDist.createDomain ( - -~-reset.. a ,reset ||boundingBox|| size ) ;\n\
P1 at 1:19   use BlockCycDist, ;;\n\
read         startIdx [ A, size]~-= -i~- -a .. - dim+D;\n\
P1 at 3:49   forall( size~,~D, size ) in- x9 >A == b !=A==startIdx with (ref*a ){}\n\
P1 at 1:17   use BlockCycDist{ ; }\n\
P1 at 1:37   use CyclicDist ;config const i :bool[;\n\
P1 at 1:1    ref A&& b&& startIdx then~on~x9{} else write() ;\n\
P1 at 3:5    size .writeXF(size &&~A||~size;\n\
read         on D== size do if boundingBox || i then while dim do ; else for reset in A do ;\n\
read         config const dim=~blockDist. createDomain(- -~-startIdx+ A+ - reset.. - x9 , -x9~..<~x9 +a);\n\
P1 at 3:11   var D~=~b dmapped size new(size ) ;\n\
P1 at 3:15   for~(~i,boundingBox for i) in boundingBox do while~a~||~D do const reset: int;\n\
read         use CyclicDist;var b =b && i dmapped new cyclicDist( (dim ,i ) );\n\
read         D~.~writeXF( !i %~b% - dim-~startIdx * - boundingBox ||~!size* a * -b +a~!= - -boundingBox);\n\
P1 at 1:8    config boundingBox const A=D.. #by a;\n\
P1 at 3:1    config const i: [i ..~reset]int = max~. createDomain~( size,a) ;\n\
read         use CyclicDist;config const x9~: int;\n\
P1 at 1:1    , .writeXF (-dim + x9<D )\n\
P1 at 2:4    const dim = i dmapped new blockDist~(i)\n\
P1 at 2:15   A.writeFF( -boundingBox+x9 ==dim~==reset&&a< - == x9||A <b/=~|| size && b &&a );\n\
read         config const x9=startIdx dmapped new blockDist~(size ) ;\n\
P1 at 1:1    (~then) ;\n\
read         config const~startIdx:int= D;\n\
read         use CyclicDist , BlockDist;config const x9 = blockDist . createDomain( D~,~-reset.. -size+ a by b +~startIdx)~;\n\
P1 at 2:18   config~const a : bool = ..A ;\n\
read         config const boundingBox :domain(7) ;\n\
read         const size =blockDist. createDomain~( size )~;\n\
read         A[b&& reset~== reset &&~A &&b ,x9 ==x9] reduce =~boundingBox >= size || startIdx==A ;\n\
P1 at 1:26   config const boundingBox blockDist bool ;\n\
read         use CyclicDist, BlockDist , BlockDist; config const size= - -D+ - size~.. #dim by i+~- reset+ size;\n\
P1 at 1:1    /= const size =blockDist .createDomain(reset)\n\
read         config const A:~int;\n\
P1 at 1:36   use BlockDist;boundingBox. readFE( ||~;~config const D :int=~cyclicDist . createDomain~(~D&&reset D+dim..< A) ;\n\
read         config~const~D= b .. # reset by~x9~;\n\
read         config const D =cyclicDist.createDomain~(size..<size ) ;\n\
read         D . writeXF(startIdx &&reset ||a || x9 ); ;\n\
read         if b == -A ||a+boundingBox then while b{ forall ( D , reset )~in dim..~startIdx do ; }else;\n\
read         use BlockCycDist ,CyclicDist ;const reset:domain ( 7)dmapped new blockDist( startIdx~)= blockDist~. createDomain (i ) ;\n\
P1 at 1:23   config const A :bool; numLocales\n\
read         D.reset () ; for ( A,dim )in i~&&i||boundingBox ||reset do while startIdx do on boundingBox do;\n\
P1 at 2:24   use CyclicDist~;config const dim: sync||bool~;\n\
read         dim .readFF( );\n\
P1 at 2:7    config~const on:bool;\n\
read         use BlockCycDist;A . readFE (~) ;\n\
read         config~const i = !boundingBox * -startIdx -~-~reset - - b~.. #~startIdx - -x9 +startIdx by b dmapped new cyclicDist( x9 ||x9 ) ;\n\
read         dim. readFF ( ) ;\n\
P1 at 1:17   config const x9 min~int;config const A: bool ;\n\
P1 at 3:4    use BlockDist ,BlockCycDist ;~config const x9:domain( 0)dmapped new blockCycDist ( a ,b~)= ..reset ;\n\
P1 at 1:9    writeln in~)~;\n\
read         config~const i = cyclicDist .~createDomain(~A~, x9) ;\n\
P1 at 1:25   var a :bool = blockDist.else createDomain~(reset .. #~reset *~by reset) ;\n\
read         if boundingBox && dim &&i~then writeln( ) ; else;\n\
read         config const startIdx= blockDist .~createDomain~( a ,a ..~x9,dim );\n\
P1 at 2:11   use~BlockDist blockDist ;~config const x9 : int =~size&&D < startIdx !=D && A ||startIdx<startIdx~;\n\
read         for~(~boundingBox, A,boundingBox )in- - D -~-~x9 +size .. #~a + x9 {~}\n\
read         config const A : domain~(0x1F)~;config const~b: sync bool~= blockDist . createDomain (~b|| dim) ;\n\
P1 at 3:13   config~const D=~cyclicDist .int createDomain ( x9 != reset ==startIdx<b) ;\n\
P1 at 1:18   config const D :[sync - i - !x9*dim*~-b&&~-A~- - -~boundingBox +~a] int ;\n\
P1 at 2:32   coforall ( b~, a) in i.. # boundingBox by D && + boundingBox with (*~reduce i~) {}config~const dim : int;\n\
P1 at 2:1    for D in A ..< -boundingBox + *~A by~A{if i then ;}\n\
P1 at 2:1    config const x9: bool; write (~on;\n\
P1 at 1:14   config const . b :[ boundingBox ]bool ;\n\
read         write ( b );\n\
P1 at 1:16   config const x9/:int ;{{ } }\n\
P1 at 1:35   A. writeXF (a + a <= i <a ==D <x9 then!=D ==A&&i<x9 && reset==i&& x9) ;\n\
P1 at 1:38   config const i:[b ,b, dim]bool =size contains dmapped new blockDist ( i);\n\
read         config const startIdx:sync~int ;config const x9 :sync~bool=~cyclicDist.createDomain(startIdx, x9 );\n\
P1 at 2:10   config const i : [ -A..< a+ - x9~+ a by - while]~bool ; config const dim:int ;\n\
read         config const boundingBox: int =blockDist.createDomain(A );\n\
read         config const reset =blockDist .createDomain(startIdx..<reset~by dim, b ,~startIdx ); config const~D: bool~;\n\
read         const reset= blockDist .createDomain( - a.. # - a);\n\
read         write ( )~;\n\
P1 at 1:8    config b: domain( 1 );\n\
read         config const x9=blockDist .createDomain (i, i);config const A= boundingBox dmapped new~blockCycDist ( boundingBox ,A~);\n\
P1 at 1:1    (\"t\"~)~;\n\
P1 at 2:3    use CyclicDist ,CyclicDist,BlockDist; config const reset : int=blockDist~. while (b );\n\
read         var D :bool= blockDist. createDomain(dim);\n\
read         on startIdx+ boundingBox !=b >=i&& - size +size < size==~size{ ; { } var x9: int ; }\n\
P1 at 2:4    config const b = - - -dim+ boundingBox - -A~..<dmapped new blockDist(boundingBox = - startIdx+~D~.. #i );\n\
P1 at 2:1    use~;config const x9 startIdx domain (1);\n\
P1 at 2:30   if A {} else forall(~D ,size , size)in reset with blockDist (ref D ){~}\n\
read         use CyclicDist ; forall D in dim>=boundingBox<a~!= blocksize{}\n\
P1 at 4:15   use~BlockCycDist~;config const size =cyclicDist.~createDomain (,boundingBox .. size~dmapped );\n\
P1 at 4:24   for( i,a ) in reset.. # reset + reset by~startIdx+i do if~a~{ }else forall writeXF low in D do ;\n\
P1 at 3:1    config const~D=cyclicDist. createDomain (~reduce.. boundingBox by x9~);\n\
read         config const startIdx =~startIdx~..< a ;\n\
read         config const boundingBox: sync int; {}\n\
read         config const boundingBox :~int;\n\
P1 at 4:10   on reset~>=~- reset~!= -size ; +i != size!= D== boundingBox~{reset . reset( ) ;}\n\
read         { while b do ; while x9 do; }config const size:int = cyclicDist .createDomain( i+b~==b~<~i );\n\
read         on D== i && D||i&& A ||a~|| size { on size do~;}\n\
P1 at 3:12   config~const dim :sync int=~cyclicDist id . createDomain (i|| i ||~x9~) ;\n\
read         config const boundingBox~: int;\n\
read         config const reset =size dmapped new blockCycDist( D~, x9);\n\
P1 at 2:24   config const~reset =x9 .. b by size%new blockCycDist( b , dim) ;var a= blockDist.createDomain(x9,~a);\n\
read         writeln (~x9|| boundingBox ,\"t\" ) ;\n\
P1 at 2:7    config const dim = x9 * -startIdx~.. A- '\\n' x9 dmapped new cyclicDist (startIdx= || a);\n\
P1 at 1:20   config const A:bool\n\
read         config const boundingBox : int;\n\
P1 at 1:27   config const i=cyclicDist.in createDomain~( dim , x9 )a .readFF ();\n\
P1 at 1:25   config const x9 = size;{( ) ;for(dim ,A )in A {} }\n\
read         config const A: [ startIdx , startIdx ..reset,~x9]~int;\n\
read         config const startIdx~: domain( 0 )~= - -~boundingBox ..< - startIdx +A;\n\
P1 at 3:3    for D in dim + -reset.. -D~by A~+D}{~}{while b do;while dim do ; }\n\
P1 at 1:1    +=const dim: int= -~dim != a < dim~!= dim==D||size &&~i||~b &&x9 && A|| startIdx || reset|| startIdx ;\n\
read         if b - - size+boundingBox!=reset <startIdx{ } else write ( );\n\
read         config const size~=~- - -~startIdx .. #~boundingBox by startIdx dmapped new cyclicDist (startIdx=(D , D,~reset)~) ;\n\
P1 at 1:35   config const A:int = startIdx - i+blockDist size.. # a dmapped new blockCycDist (startIdx= ( on~,boundingBox ) , startIdx );\n\
read         config~const boundingBox:int=~blockDist . createDomain~( b~) ;\n\
P1 at 2:22   config const b = cyclicDist . createDomain (b .. #a , reset );{ while- startIdx~>= -reset {write( D. || D )~;}}\n\
P1 at 1:4    { ;/=dim&& size;}\n\
P1 at 2:4    config const~x9 numLocales int~low\n\
P1 at 1:1    ^ }\n\
P1 at 1:17   config const x9 blockDist : bool~= in .createDomain~( a.. x9 ,~i ) ;\n\
read         dim.reset ( );config const reset :~bool~= A - -~A..<size dmapped new cyclicDist ( startIdx= D );\n\
P1 at 1:54   config const b=A == b; for x9 in A .. # reset do for blockCycDist in~|{ }\n\
P1 at 4:6    config const b :int; config const~i=boundingBox +reset + size&& -~A < a~<dim b ;\n\
P1 at 4:3    use BlockCycDist ,BlockDist;config const A=blockDist .createDomain~( size~, b.. A );config const~D first = blockDist.createDomain~(x9 );\n\
read         use BlockDist~;config const x9: int;\n\
P1 at 2:1    while A==a|| &&~boundingBox do CyclicDist ( ) ;\n\
P1 at 1:8    config reset:bool=reset;\n\
P1 at 1:35   use CyclicDist ; config const dim startIdx= blockDist . createDomain (boundingBox,x9,D); size . reset~( )~;\n\
read         on reset&& x9{~for size in a do ;~; }if boundingBox ==A {write( ) ;}~else forall D in size~{}\n\
P1 at 1:15   if x9|| reset -=on A {}\n\
read         config const i:sync int;\n\
P1 at 2:1    config const i= cyclicDist . createDomain (~var ) ;\n\
P1 at 5:4    config const startIdx =A- startIdx .. -~-~b by A dmapped new blockDist (boundingBox~= - i+~x9 writeEF# b) ;\n\
read         config const startIdx:sync bool ;\n\
read         config const a = blockDist . createDomain( - - +reduce x9 %~!a *boundingBox * - - startIdx..< !~! !a~% -startIdx);\n\
read         config const x9= cyclicDist. createDomain(A == i ||~dim, -a .. # b + A by reset)~;\n\
P1 at 2:5    use CyclicDist ,CyclicDist ;~{ a in i+ - reset..< -reset+ boundingBox do { }\n\
read         config const a : [A ..a ,size] bool =a ;\n\
read         config const dim: int ;\n\
read         use BlockDist~;config~const i:sync int;\n\
read         use BlockDist;;const D~:~sync bool= x9~;\n\
read         config const~D :bool;\n\
read         config const A=blockDist . createDomain (dim &&D ||startIdx);\n\
read         i.~reset ( ) ;\n\
read         config const startIdx= cyclicDist.~createDomain( startIdx ==boundingBox&&i && A||x9 &&~i );\n\
P1 at 1:1    > config const startIdx: sync;\n\
read         forall i in A do while A do size = size;\n\
read         config const i =startIdx;\n\
P1 at 2:19   config~const boundingBox domain~( 1_0~)~dmapped new blockDist~( boundingBox =boundingBox ||D) ;\n\
P1 at 1:24   config const a=Locales cyclicDist .createDomain ( i ,x9);\n\
read         forall A in reset+ A &&dim< i do if A {~}else const dim = blockDist .createDomain ( a )~;\n\
read         on x9 do const dim: int;\n\
read         use BlockCycDist~,BlockDist, BlockDist;writeln( ) ;\n\
read         config const dim= blockDist .~createDomain (i ) ;\n\
P1 at 2:39   use~BlockCycDist, BlockCycDist, BlockDist coforall; i . readFE ();\n\
P1 at 1:1    ] config const a : bool ;\n\
P1 at 1:16   config const A:true bool ;\n\
read         D [reset] /= - - startIdx+b .. - reset +reset by dim;\n\
read         config const D =~size .. #x9+dim by startIdx dmapped new blockCycDist ( startIdx =x9||~size , D) ;\n\
P1 at 1:9    writeln &~) ;\n\
P1 at 2:13   config const boundingBox :domain ( 0) dmapped new~cyclicDist (: = (~boundingBox ||size ,~boundingBox)) ;\n\
read         config const boundingBox~: int ;\n\
read         use BlockDist~; config const A : int ;\n\
P1 at 1:16   config const a bool~:domain ( 1_0) dmapped createDomain~cyclicDist~(boundingBox) =size &&a~dmapped~new cyclicDist( startIdx=reset);\n\
read         use~CyclicDist , BlockCycDist ;{ }\n\
read         on D== i &&size&&size~||~a &&x9 do while i{~}\n\
read         config const boundingBox :sync~int =~cyclicDist . createDomain( -reset~!=~reset< i ==b== A) ; writeln();\n\
read         config const A= blockDist~.createDomain~(startIdx && D&&reset) ;\n\
read         config const~boundingBox: bool = cyclicDist .createDomain (!~i *~dim* -startIdx && x9~>=A~)~;\n\
P1 at 2:47   config const reset:~bool=size.. boundingBox dmapped new blockDist min a) ;\n\
read         var i :bool= blockDist. createDomain( startIdx~);write();\n\
P1 at 2:9    config const i =~b..size boundingBox by startIdx;\n\
P1 at 2:1    const dim : domain(1 )~writeEF = %=blockDist .createDomain (A)~;\n\
read         on-startIdx[A ]~* ! i / + reduce startIdx~{}\n\
read         {~} config const a :bool;\n\
read         config const startIdx= cyclicDist .createDomain( size ..< a~-~-~x9 + a by a ,size -A+~a ..~-i ) ;\n\
read         use CyclicDist , CyclicDist,BlockDist; config const b~: sync bool ;\n\
P1 at 2:18   config const~reset =b&&dim && +=b dmapped new blockDist( dim + b..<size~);\n\
P1 at 2:11   {}config const~blocksize A : if(~1 ) ;\n\
P1 at 1:61   config const dim : bool=cyclicDist. createDomain ( size &&A /=D blockDist )~;\n\
read         {coforall(size~, dim) in D with (ref D) { } ;}\n\
P1 at 1:24   config const startIdx: (1_0)dmapped new blockCycDist( A,size)~;\n\
read         reset. readFE (~);\n\
P1 at 1:15   const i :[A.. <=~boundingBox~, startIdx ] bool;\n\
read         use BlockDist , BlockDist ; ;\n\
P1 at 5:20   config const x9= blockDist . createDomain( a~==startIdx , a..< - dim by b~,~-a+b ..<~reset by startIdx);>\n\
P1 at 2:35   config~const i= cyclicDist. createDomain first (- -size!=~-A< D !=D !=startIdx == reset ) ;\n\
P1 at 1:14   writeln( ) ; ]\n\
read         config const reset :~sync bool ;\n\
P1 at 1:8    on A<= writeln i~>size ||size+ i > a|| startIdx!= D == D&&dim== b&&x9 || b==~i&& D{}\n\
P1 at 1:8    if dim size ||~D then var boundingBox=size; else writeln~(x9 ) ;\n\
P1 at 1:14   config const config A=blockDist. createDomain~(a == startIdx~,reset ||a) ;\n\
P1 at 1:8    config max i =b||startIdx&& /= D ||size||startIdx;\n\
read         config const b :int;\n\
P1 at 1:4    A[ ] reduce =A +i+ reduce dim.. -b by a ;\n\
P1 at 4:7    use~BlockDist~;config const~reset reduce~:bool=i;\n\
read         config const reset =reset .. #~i dmapped new blockDist(b~);{ }\n\
read         config const x9~:~int = -~-D.. # - A by A + dim dmapped new blockDist( boundingBox=D ) ;\n\
read         config const D~=blockDist . createDomain (size + -size+ D~);\n\
P1 at 4:1    config const reset : bool~= cyclicDist . createDomain (- b !=reset <~boundingBox&&reset~i && A== i~&&startIdx) ;\n\
P1 at 2:20   D . writeXF(~- i +boundingBox!= <b !=startIdx||~a<reset== reset~&& A )~; {~}\n\
read         forall boundingBox~in! &&reduce & reduce|reduce min~reduce~max~reduce +~reduce a ..< - - - - - -size { }\n\
P1 at 1:3    a readFE ( ) ;\n\
P1 at 2:3    coforall ( size, dim, reset~) false in -~-D ..~i +startIdx by~dim do if D then while a~do;\n\
read         write (\"t\" , dim,\"t\" );\n\
P1 at 2:14   config const x9 : [ a~== startIdx||domain size &&D] int= b ||size ;\n\
read         config const reset:bool =cyclicDist . createDomain (~- x9-D ..< - b , -startIdx ..<~dim) ; config const D:bool =reset;\n\
read         config const reset :[~x9 ..<~reset~by startIdx~] int;\n\
P1 at 1:3    { in\n\
P1 at 2:2    writeln (- - - startIdx- - - dim> - -a+ boundingBox||~-new-startIdx!= A+reset >i< x9 );\n\
read         dim %= Locales~+ - ! ! ! a .. #- !~! !a / ! reset ;\n\
read         use~CyclicDist ;on reset == reset >=i&&a + i>=i&&D!=startIdx~== A|| - i +a >a~<~dim&& D do ;\n\
P1 at 2:1    use CyclicDist ,BlockDist; CyclicDist~}\n\
read         config const A = ! max reduce D* - !a * reset- D/b ..min reduce x9~/ - -a + -~-a + -~b ;\n\
read         { } for~( a , startIdx~) in- -~(~i~) . size * - - -size..< ! ! ^ reduce+reduce D{;~}\n\
read         { } config const i =cyclicDist. createDomain( - i.. # a- -D+~D);\n\
P1 at 1:16   const D: bool ;else\n\
P1 at 2:11   ;write(~'\\n',last b ==reset&&a &&x9~||x9 &&reset~);\n\
P1 at 1:14   config const new: domain(1_0 )~dmapped~new blockCycDist( A ,~dim) =~boundingBox dmapped new blockDist (~size);\n\
P1 at 1:14   config const with : bool ;\n\
read         while a do~for boundingBox in a do if reset then~;\n\
P1 at 1:17   config const i: startIdx(BlockCycDist )= dim ;\n\
P1 at 1:7    write 1~\"t\", boundingBox|| -~reset &&i < A false ;\n\
read         config const x9 :sync bool~;\n\
read         config const dim= cyclicDist .~createDomain(x9 ..~size by i,size ..A );\n\
read         while- startIdx==A+reset ==i< b{ } config~const boundingBox =~reset ==startIdx&& x9~|| i;\n\
P1 at 1:26   if b&&size &&boundingBox on b || startIdx do write ( ) ;\n\
read         config const A :sync int;\n\
P1 at 2:5    const~a = bool . createDomain( A > i~&&i == b ||reset <startIdx &&~a D ,D <x9);\n\
P1 at 3:18   use CyclicDist , BlockDist;forall startIdx~in dim|| a || a with(max reduce~A ){boundingBox= domain x9;~;~}\n\
read         config const boundingBox =cyclicDist. createDomain( size~) ;\n\
read         write( ); config const a: [a,~size] int;\n\
read         use CyclicDist , BlockDist,BlockDist;{ }\n\
P1 at 2:59   for size in- - -a ..< +reduce~D- -startIdx + - boundingBox - D+ boundingBox by - - - - |A -reset * - startIdx{ }\n\
read         config const reset=~cyclicDist.createDomain (- -~-i * A .. #b%~-~b - - ! a*~b,-boundingBox== dim) ;\n\
read         const dim=cyclicDist.createDomain (dim ..dim );\n\
P1 at 2:4    config const x9 :[~|| x9 ..<size] int;\n\
read         config const size = a dmapped new blockDist ( i) ;\n\
read         use BlockCycDist,BlockDist ; config const~startIdx= blockDist~. createDomain(x9 && startIdx&& boundingBox ||x9&&boundingBox|| a) ;\n\
read         config const startIdx:[ b..~#i by D]int; config const dim :int;\n\
read         config const b~: int;\n\
P1 at 3:11   config const A=~blockDist . createDomain~( writeXF ! !b/ !~x9% !size*startIdx.. #~reset) ;\n\
P1 at 2:1    config const size=cyclicDist.~if createDomain( dim)dim;\n\
P1 at 2:32   {~}config const size : sync bool * =a ;\n\
read         use~CyclicDist~; config const startIdx =~blockDist .~createDomain (a == D &&~startIdx~&&size,~- boundingBox..< - size by startIdx);\n\
P1 at 1:18   use CyclicDist ; ,config size =cyclicDist .createDomain( dim ..reset by startIdx )~;\n\
P1 at 1:28   config const startIdx:bool while\n\
P1 at 1:15   while reset { ();\n\
read         {var size~:int ; }\n\
P1 at 2:1    config const boundingBox : sync bool~low;\n\
read         writeln( - size== -boundingBox) ;\n\
P1 at 2:7    config~const { a : int ;\n\
P1 at 1:3    on>=reset +x9~== -x9==A&&reset+size !=a || -boundingBox> dim < x9~== > &&i &&startIdx== reset {~}\n\
P1 at 2:3    use CyclicDist ;config const~b domain (1~)~;\n\
P1 at 1:21   config const readFE i :sync~int;\n\
P1 at 1:49   config const a =cyclicDist . createDomain(size (== reset ||a~&& x9 || reset|| D , size..<~-startIdx ) ;\n\
read         if - a~<= -x9 >~startIdx~!= a + a >=x9< a {}else for i in D== D&&boundingBox do var a =i~;\n\
P1 at 2:30   use BlockDist,~CyclicDist ,BlockDist;config dim=cyclicDist . createDomain (startIdx~*A + - -boundingBox .. #x9 ) ;\n\
read         {}\n\
P1 at 1:4    id config const~reset =A\n\
read         write ( \"\" );D . writeEF ( A/ -D== - - size~- startIdx~+ a==~- i ) ;\n\
P1 at 2:30   config const D~=cyclicDist . createDomain ( var A ..< startIdx by size , boundingBox ) ;\n\
P1 at 4:23   config const reset = blockDist. createDomain ( ! D* -boundingBox.. size by- -b );config~const boundingBox=~i~dmapped new blockDist high size );\n\
read         config const~dim : bool= x9 .. startIdx ; config const~x9:[dim..< boundingBox]int ;\n\
P1 at 3:3    config const D~= - - a>= reset dmapped new blockDist~( <=~=dim );\n\
P1 at 3:12   use CyclicDist, BlockDist ; dim~reduce~= -size +D numLocales>=i <b||x9 && D == dim||startIdx == D~; const startIdx~:~bool~;\n\
P1 at 1:8    expand const boundingBox = size..~# dim by startIdx;\n\
read         size [~i !=i ==reset ,boundingBox]%= reset + a<= dim==~dim&&reset ==A==~boundingBox &&~dim ;\n\
P1 at 4:13   startIdx~.~reset()~; for x9 in += * D~..< ! !b by -~b*size - - - D~do;\n\
P1 at 3:1    config~const~var~x9 :int = blockDist.createDomain(boundingBox||a ||a,~size~);\n\
P1 at 1:21   const b: domain (0 )blockDist .~createDomain ( boundingBox ) ;\n\
P1 at 1:5    use write~BlockCycDist ;~config const startIdx:sync int ;\n\
P1 at 2:1    use BlockCycDist,CyclicDist ;const D:~>=domain (~0) dmapped new blockDist(ref );\n\
P1 at 1:53   const boundingBox=startIdx dmapped new cyclicDist( (-= startIdx ,dim ) contains )~;\n\
read         config const A= - -A&& A~+~boundingBox != size< x9 ;\n\
read         writeln ( \"\" , \"t\" ,reset, '\\n') ; A~.writeXF( b||~x9);\n\
read         var x9 =reset;\n\
P1 at 2:21   { on startIdx~==dim &&D|| dim {x9 do write(~) ; if a&&~reset~then~;};\n\
read         { } config const b: domain~( 7 );\n\
read         writeln(~) ;~;\n\
read         config const~a :int~;\n\
P1 at 1:11   blocksize const reset :~;\n\
read         config const a =startIdx ==boundingBox &&dim&&~A || i&&reset dmapped new cyclicDist~(startIdx =size) ;\n\
P1 at 1:1    cyclicDist use BlockCycDist ;config const size: int = dim.. a ;\n\
P1 at 1:5    dim : [D.. A ,boundingBox] bool = startIdx; const~( ) ;\n\
P1 at 1:16   config const i const dim ;\n\
read         use BlockDist ; config const size =~! b/ - reset.. boundingBox% - size~by- - ! x9* - dim;\n\
read         const boundingBox =cyclicDist . createDomain( A, i || x9 , size ) ;if x9== boundingBox&&a~|| a ||x9||size {}else;\n\
P1 at 1:7    const : [ D .. size ,a ] int;\n\
P1 at 1:7    write ] (~) ;\n\
read         config const size :[dim.. #startIdx by~a~,x9, startIdx ] int;\n\
read         config const A= ! !boundingBox * i * D * - D + - -~-~a+ -~-b;\n\
P1 at 3:5    config const~startIdx: domain~( 1)\n\
P1 at 3:10   use CyclicDist ,BlockDist ;~x9~. readFF Locales( ) < ;\n\
P1 at 2:1    config const x9:~writeFF bool ;if boundingBox==D&& size { }\n\
read         config const~startIdx=~boundingBox.. #reset~;\n\
read         use BlockDist;config const D :int;\n\
P1 at 1:8    config min dim=blockDist . createDomain~( i..dim += ;\n\
read         A . writeEF (~D~&&a~) ;\n\
P1 at 1:1    sync use BlockCycDist ;config const~:bool ;\n\
read         config const reset =cyclicDist. createDomain( size&& b || A&&x9, reset&&i,a);\n\
read         config const size= -a* -x9 <= reset * -size + -~reset+~- reset <= - - reset- D~;\n\
P1 at 1:20   config const reset do=dim.. b by b;\n\
read         config~const~b =startIdx.. startIdx dmapped new blockDist ( a )~;\n\
P1 at 4:51   config const~i~=~blockDist.createDomain( -startIdx +i .. - -size + >startIdx by-dim -A + b ) ;\n\
P1 at 1:1    ( )~;\n\
P1 at 1:102  config const i =D dmapped new blockDist(-size) ;config const x9 :[ D .. A by startIdx,i, i] bool = b A;\n\
P1 at 7:1    for(size,dim ) in~- -~- ! !dim~% - - - -~-x9~.. ! !~reduce false. size * (~a ) {~}\n\
P1 at 1:10   if reset max~||size &&D then writeln(~b,\"t\"~) ;else~;\n\
read         config const b:bool ;config~const b=size ;\n\
P1 at 2:9    use CyclicDist ,BlockDist,BlockDist ;~{ readFE\n\
P1 at 2:1    config const size: int~^;\n\
P1 at 3:6    writeln~(D==a~|| i int==a ,~x9~==x9||i, '\\n' , A );\n\
P1 at 2:19   ;{ a~. reset (); readFF\n\
read         on x9~==~a&& dim { while D do~; ;}\n\
read         config~const x9=cyclicDist. createDomain( D ) ;\n\
P1 at 4:30   config~const~D~: sync int; config const x9: #bool ;\n\
read         var dim = cyclicDist .createDomain ( x9 ,~dim )~;\n\
P1 at 1:20   config const a:bool-;\n\
read         config const startIdx~:sync~bool ; config const i = blockDist .~createDomain (~reset~) ;\n\
read         config~const~x9 : bool ;config const i = - -size~..<~- -b ;\n\
read         const x9~= -a dmapped new~cyclicDist( ( reset&& boundingBox&&A,b~==dim&& D &&reset||size&&b||~startIdx||startIdx) ) ;\n\
read         while~- - D~> size~+ A~>=b { }\n\
read         const reset=~! ! &&~reduce~+reduce size .. !max reduce+reduce size% ! +reduce size by -D~/ !b ;\n\
P1 at 1:6    size const startIdx :=reset~;\n\
read         use BlockDist ,BlockCycDist ,BlockDist; dim~.writeXF (-b +~dim !=~boundingBox <D ||reset~< x9 !=x9 ) ;\n\
P1 at 4:16   if~i~&&a && startIdx||D then{~} else on size } ;\n\
read         config const b = a&& b|| dim|| size||boundingBox ;\n\
P1 at 1:9    forall( new dim~,size,~D~) in- - x9 ..<size+ reset with (ref b high, ref x9 ) { }\n\
P1 at 1:47   use CyclicDist; { on boundingBox { }on x9 do ;with\n\
P1 at 2:13   dim.reset( ) ;config const~boundingBox else : sync int ;\n\
P1 at 1:16   const b :bool= #cyclicDist.createDomain( x9 ..<reset by~i , D .. size);\n\
read         config const~i~:bool ;dim[ x9|| D]~+= - -~b- - A ..A +size by x9 ;\n\
P1 at 1:8    config readFE const reset :domain( 1 );\n\
P1 at 5:7    config const x9= blockDist.createDomain( dim>= - i~!=~D || -~x9+ i ); config const A :~int= D\n\
P1 at 1:19   config const dim: BlockDist bool; config const size =blockDist . createDomain~( x9|| a|| startIdx , startIdx~&&~dim) ;\n\
P1 at 1:20   writeln( ); config > const startIdx : bool ;\n\
P1 at 2:12   config const reset: int =~cyclicDist high createDomain~(startIdx !=dim != A~,~] < a);\n\
P1 at 2:43   config const~D: domain ( 0) = a dmapped new cyclicDist startIdx ) ;\n\
P1 at 2:5    for(~D,b last ) in startIdx&&a { }\n\
P1 at 1:24   { write ('\\n') ; const ..i :int~;}\n\
read         dim.reset();\n\
P1 at 1:7    write Locales~) ;\n\
P1 at 1:10   writeln(1\n\
P1 at 1:15   for i in 1..3 writeln(i);\n\
P1 at 1:18   use BlockDist;use\n\
P1 at 1:5    use blockDist;\n\
P1 at 1:8    x = 1; use BlockDist;\n\
P1 at 1:8    config var n = 1;\n\
P1 at 1:3    { config const n = 1; }\n\
P1 at 1:6    var x;\n\
P1 at 1:8    var x: string;\n\
P1 at 1:13   var s: sync domain(1);\n\
P1 at 1:17   const D: domain(k) = S;\n\
P1 at 1:11   const D = blockCycDist.createDomain({1..2});\n\
P1 at 1:21   const D = blockDist.create({1..2});\n\
P1 at 1:21   const D = S dmapped blockDist(S);\n\
P1 at 1:43   const D = S dmapped new blockDist(startIdx=S);\n\
P1 at 1:51   const D = S dmapped new cyclicDist(startIdx=(1,2,3,4));\n\
P1 at 1:41   const D = S dmapped new cyclicDist((1..2, 3));\n\
P1 at 1:42   const D = S dmapped new cyclicDist((1, 2).low);\n\
P1 at 1:39   const D = S dmapped new blockCycDist(1);\n\
P1 at 1:3    x == 1;\n\
P1 at 1:2    x;\n\
P1 at 1:4    A[1..2] = 3;\n\
P1 at 1:5    A[1][2] = 3;\n\
P1 at 1:3    A.size = 3;\n\
P1 at 1:11   c.writeEF();\n\
P1 at 1:10   c.readFE(1);\n\
P1 at 1:10   m reduce += 1;\n\
P1 at 1:9    write(1,);\n\
P1 at 1:8    write(1..2);\n\
P1 at 1:13   writeln(1);;else ;\n\
P1 at 1:6    if a b = 1;\n\
P1 at 1:20   if a then ; else ; else ;\n\
P1 at 1:9    while a ;\n\
P1 at 1:7    for (i) in D do ;\n\
P1 at 1:13   for (i, j, k, l) in D do ;\n\
P1 at 1:15   for i in 1..3 with (ref x) do ;\n\
P1 at 1:21   forall i in D with () do ;\n\
P1 at 1:21   forall i in D with (- reduce s) do ;\n\
P1 at 1:10   x = 1..3 == 2;\n\
P1 at 1:11   x = a == 1..3;\n\
P1 at 1:9    x = 1..2..3;\n\
P1 at 1:9    x = 1..<#3;\n\
P1 at 1:7    x = 1 by 2;\n\
P1 at 1:15   x = 1..3 by 2 by 3;\n\
read         x = a * -b * - c;\n\
P1 at 1:7    x = a.b;\n\
P1 at 1:11   x = a.dim(k);\n\
P1 at 1:10   x = a.dim;\n\
P1 at 1:16   x = a.contains();\n\
P1 at 1:6    x = {};\n\
P1 at 1:6    x = ();\n\
P1 at 1:7    x = a[];\n\
P1 at 1:5    x = \"a\";\n\
P1 at 1:9    x = max A;\n\
P1 at 1:5    x = int;\n\
P1 at 1:1    }\n\
P1 at 1:2    {\n\
";
